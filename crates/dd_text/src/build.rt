ghost use Rattle.std.specs.Prelude.{◌≡◌, ◌≢◌, ◌∷◌, ◌<◌, ◌≤◌, [], Err, IfOk, IsTrue, MatchOption, OnErr, OnOk};
ghost use Rattle.std.specs.List.{list_all};
ghost use Rattle.dd_text.specs.Grammar.{Term};
ghost use Rattle.dd_text.specs.Symbols.{Grows, symbol_count};
ghost use Rattle.dd_text.specs.Text.{axiom_of, concept_of, with_term};
ghost use Rattle.dd_text.specs.Automaton.{signs_of};
ghost use Rattle.dd_text.specs.Build.{AreTermSigns, PopsFew, built, is_sign, onto, paired, with_sign, with_signs, wrapped};

use crate::grammar::Sign;
use crate::symbols::{NameErr, Symbols};
use dd_concept::{
    Axiom, Concept, Items, NoMemory, conjunction, disjunction, existential, negation, universal,
};
use std::alloc::Global;
use std::marker::Model;

#[derive(Drop)]
pub enum BuildErr {
    SymbolsFull,
    NoMemory,
}

/// Concepts that are parts of what comes before them in the text, the first of them first.
#[derive(Drop)]
pub struct Pile {
    concepts: Vec<Concept>,
}

impl Model for Pile {
    ghost use Rattle.std.specs.Prelude.{List, reverse};
    ghost use Rattle.std.specs.Coded.{codes};
    ghost use Rattle.dd_concept.specs.declared.concept.Concept.{Concept};
    ghost use Rattle.dd_concept.specs.contracts.concept.Concept as concept;

    ghost Value = { List Concept };

    ghost coded = { Prim.hlevel (codes, concept.the_row.coded) };

    ghost view = { λ p. reverse p.concepts.items };
}

impl Pile {
    fn new(alloc: Global) -> Pile
        ensures { result ≡ [] }
    {
        Pile {
            concepts: Vec::new(alloc),
        }
    }

    fn push(&mut self, c: Concept) -> Result<(), NoMemory>
        ensures { OnOk result (self.new ≡ c ∷ self.old) }
    {
        self.concepts.push(c)?;
        Ok(())
    }

    fn pop(&mut self) -> Option<Concept>
        ensures { MatchOption result ((self.old ≡ []) × (self.new ≡ [])) (λ c. self.old ≡ c ∷ self.new) }
    {
        self.concepts.pop()
    }

    // The first two, or none where there are fewer, which go.
    fn pop_two(&mut self) -> Option<(Concept, Concept)>
        ensures { MatchOption result (PopsFew self.old self.new) (λ two. self.old ≡ two.0 ∷ two.1 ∷ self.new) }
    {
        let first = self.pop()?;
        let second = self.pop()?;
        Some((first, second))
    }

    // This and the next four put a form in the place of its parts, or nothing where parts are missing.
    fn negate(&mut self, alloc: Global) -> Result<(), NoMemory>
        ensures { OnOk result (self.new ≡ wrapped Concept.Not self.old) }
    {
        match self.pop() {
            Some(c) => self.push(negation(alloc, c)?),
            None => Ok(()),
        }
    }

    fn conjoin(&mut self, alloc: Global) -> Result<(), NoMemory>
        ensures { OnOk result (self.new ≡ paired Concept.And self.old) }
    {
        match self.pop_two() {
            Some((c, d)) => self.push(conjunction(alloc, c, d)?),
            None => Ok(()),
        }
    }

    fn disjoin(&mut self, alloc: Global) -> Result<(), NoMemory>
        ensures { OnOk result (self.new ≡ paired Concept.Or self.old) }
    {
        match self.pop_two() {
            Some((c, d)) => self.push(disjunction(alloc, c, d)?),
            None => Ok(()),
        }
    }

    fn restrict_some(&mut self, alloc: Global, role: u32) -> Result<(), NoMemory>
        ensures { OnOk result (self.new ≡ wrapped (Concept.HasSome role) self.old) }
    {
        match self.pop() {
            Some(c) => self.push(existential(alloc, role, c)?),
            None => Ok(()),
        }
    }

    fn restrict_all(&mut self, alloc: Global, role: u32) -> Result<(), NoMemory>
        ensures { OnOk result (self.new ≡ wrapped (Concept.HasAll role) self.old) }
    {
        match self.pop() {
            Some(c) => self.push(universal(alloc, role, c)?),
            None => Ok(()),
        }
    }
}

fn add_sign(alloc: Global, symbols: &mut Symbols, sign: &Sign) -> Result<(), BuildErr>
    requires { IsTrue (is_sign sign.now) }
    ensures ok { OnOk result (symbols.new ≡ with_sign symbols.old sign.now) }
    ensures few { symbol_count symbols.old ≤ 65536 → OnOk result (symbol_count symbols.new ≤ 65536) }
    ensures full { result ≡ Err BuildErr.SymbolsFull → 65536 < symbol_count (with_sign symbols.old sign.now) }
    ensures err { OnErr result (symbols.new ≡ symbols.old) }
{
    let added = match sign {
        Sign::Name(a) => symbols.add_name(alloc, a.as_slice()),
        Sign::HasSome(r) => symbols.add_role(alloc, r.as_slice()),
        Sign::HasAll(r) => symbols.add_role(alloc, r.as_slice()),
        _ => return Ok(()),
    };
    match added {
        Ok(_) => Ok(()),
        Err(NameErr::SymbolsFull) => Err(BuildErr::SymbolsFull),
        Err(NameErr::NoMemory) => Err(BuildErr::NoMemory),
        Err(NameErr::Bad) => unreachable!(),
    }
}

fn add_signs(alloc: Global, symbols: &mut Symbols, signs: &[Sign]) -> Result<(), BuildErr>
    requires { IsTrue (list_all is_sign signs.now) }
    ensures ok { OnOk result (symbols.new ≡ with_signs symbols.old signs.now) }
    ensures few { symbol_count symbols.old ≤ 65536 → OnOk result (symbol_count symbols.new ≤ 65536) }
    ensures full { result ≡ Err BuildErr.SymbolsFull → 65536 < symbol_count (with_signs symbols.old signs.now) }
    ensures grows { Grows symbols.old symbols.new }
{
    for sign in signs {
        if let Err(e) = add_sign(alloc, symbols, sign) {
            return Err(e);
        }
    }
    Ok(())
}

fn put(alloc: Global, symbols: &Symbols, pile: &mut Pile, sign: &Sign) -> Result<(), NoMemory>
    ensures { OnOk result (pile.new ≡ onto symbols.now sign.now pile.old) }
{
    match sign {
        Sign::Top => pile.push(Concept::Top),
        Sign::Bottom => pile.push(Concept::Bottom),
        Sign::Name(a) => pile.push(Concept::Name(symbols.name_number(a.as_slice()))),
        Sign::Not => pile.negate(alloc),
        Sign::And => pile.conjoin(alloc),
        Sign::Or => pile.disjoin(alloc),
        Sign::HasSome(r) => pile.restrict_some(alloc, symbols.role_number(r.as_slice())),
        Sign::HasAll(r) => pile.restrict_all(alloc, symbols.role_number(r.as_slice())),
    }
}

// The parts of a node stand after it, so the last node comes first.
fn build(alloc: Global, symbols: &Symbols, signs: &[Sign]) -> Result<Pile, NoMemory>
    ensures { IfOk result (λ pile. pile ≡ built symbols.now signs.now []) }
{
    let mut pile = Pile::new(alloc);
    let mut left = signs.len();
    while left > 0 {
        left -= 1;
        put(alloc, symbols, &mut pile, &signs[left])?;
    }
    Ok(pile)
}

/// Adds the symbols of a concept and builds it. After an error the symbols are those from before with others after them.
pub fn build_concept(
    alloc: Global,
    symbols: &mut Symbols,
    signs: Items<Sign>,
) -> Result<Concept, BuildErr>
    requires term { AreTermSigns signs }
    requires few { symbol_count symbols.old ≤ 65536 }
    ensures symbols { (t : Term) → signs ≡ signs_of t → OnOk result (symbols.new ≡ with_term symbols.old t) }
    ensures concept { IfOk result (λ c. (t : Term) → signs ≡ signs_of t → c ≡ concept_of symbols.new t) }
    ensures few { OnOk result (symbol_count symbols.new ≤ 65536) }
    ensures full { result ≡ Err BuildErr.SymbolsFull → (t : Term) → signs ≡ signs_of t → 65536 < symbol_count (with_term symbols.old t) }
    ensures grows { Grows symbols.old symbols.new }
{
    let nodes = signs.as_slice();
    if let Err(e) = add_signs(alloc, symbols, nodes) {
        return Err(e);
    }
    let Ok(mut pile) = build(alloc, symbols, nodes) else {
        return Err(BuildErr::NoMemory);
    };
    match pile.pop() {
        Some(c) => Ok(c),
        None => unreachable!(),
    }
}

/// Adds the symbols of an axiom's sides, the left one's first, and builds them.
pub fn build_axiom(
    alloc: Global,
    symbols: &mut Symbols,
    left: Items<Sign>,
    right: Items<Sign>,
) -> Result<Axiom, BuildErr>
    requires left { AreTermSigns left }
    requires right { AreTermSigns right }
    requires few { symbol_count symbols.old ≤ 65536 }
    ensures symbols { (l r : Term) → left ≡ signs_of l → right ≡ signs_of r → OnOk result (symbols.new ≡ with_term (with_term symbols.old l) r) }
    ensures sides { IfOk result (λ a. (l r : Term) → left ≡ signs_of l → right ≡ signs_of r → a ≡ axiom_of symbols.new l r) }
    ensures few { OnOk result (symbol_count symbols.new ≤ 65536) }
    ensures full { result ≡ Err BuildErr.SymbolsFull → (l r : Term) → left ≡ signs_of l → right ≡ signs_of r → 65536 < symbol_count (with_term (with_term symbols.old l) r) }
    ensures grows { Grows symbols.old symbols.new }
{
    let first = match build_concept(alloc, symbols, left) {
        Ok(c) => c,
        Err(e) => return Err(e),
    };
    let second = match build_concept(alloc, symbols, right) {
        Ok(c) => c,
        Err(e) => return Err(e),
    };
    Ok(Axiom {
        left: first,
        right: second,
    })
}
