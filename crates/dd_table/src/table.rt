//! The table: labels of one width, each once, by number.
ghost use Rattle.std.specs.Prelude.{◌≡◌, ◌+◌, ◌<◌, ◌≤◌, [], not, length, slice_get, Some, IfOk, IfSome, OnOk, OnErr};
ghost use Rattle.indexmap.specs.IndexSet.{index_set_len, IsUnique};
ghost use Rattle.dd_set.specs.Words.{IsPacked};
ghost use Rattle.dd_table.specs.Labels.{labels_of, same_words, has_label, with_label, number_of, place_of, AllPacked, KeepsLabels, IsWithoutRepeats};

use crate::NoMemory;
use crate::view::LabelView;
use bumpalo::Bump;
use dd_set::Bits;
use indexmap::IndexSet;
use std::alloc::Global;
use std::marker::Model;

/// The most labels of a table.
const MOST_LABELS: usize = 4_294_967_295;

/// Labels of one width, each once. A label's number is its position, counted from 0, and stays.
#[derive(Drop)]
pub struct Table<'b> {
    arena: &'b Bump,
    width: u32,
    labels: Box<IndexSet<&'b [u64]>>,
}

impl<'b> Model for Table<'b> {
    ghost use Rattle.std.specs.Prelude.{◌≤◌};
    ghost use Rattle.indexmap.specs.IndexSet.{index_set_len, IsUnique};
    ghost use Rattle.dd_table.specs.Labels.{Labels, labels_of, same_words, AllPacked};

    ghost Value = { Labels };

    ghost view = { λ t. record { width = t.width; list = labels_of t.labels.value.keys } };

    ghost invariant = { λ t. (index_set_len t.labels.value ≤ 4294967295) × IsUnique same_words t.labels.value × AllPacked t.width (labels_of t.labels.value.keys) };
}

impl<'b> Table<'b> {
    /// No labels yet. Their words will lie in the arena.
    pub fn new(alloc: Global, arena: &'b Bump, width: u32) -> Result<Table<'b>, NoMemory>
        ensures empty { IfOk result (λ t. t.list ≡ []) }
        ensures width { IfOk result (λ t. t.width ≡ width) }
    {
        Ok(Table {
            arena,
            width,
            labels: Box::new(alloc, IndexSet::new(alloc))?,
        })
    }

    /// All labels have it.
    pub fn width(&self) -> u32
        ensures { result ≡ self.now.width }
    {
        self.width
    }

    /// How many labels there are.
    pub fn len(&self) -> u32
        ensures len { result ≡ length self.now.list }
        ensures distinct { IsWithoutRepeats self.now.list }
        ensures packed { AllPacked self.now.width self.now.list }
    {
        self.labels.len() as u32
    }

    /// The number of the label, which is appended where it is new, and whether it was.
    ///
    /// `NoMemory` comes where the memory is used up, or where there are 4,294,967,295 labels already.
    pub fn intern(&mut self, _alloc: Global, label: &Bits) -> Result<(u32, bool), NoMemory>
        requires { label.now.width ≡ self.old.width }
        ensures labels { OnOk result (self.new ≡ record self.old { list = with_label self.old.list label.now.words }) }
        ensures number { IfOk result (λ r. r.0 ≡ number_of self.new.list label.now.words) }
        ensures found { IfOk result (λ r. slice_get self.new.list r.0 ≡ Some label.now.words) }
        ensures fresh { IfOk result (λ r. r.1 ≡ not (has_label self.old.list label.now.words)) }
        ensures kept { KeepsLabels self.old.list self.new.list }
        ensures err { OnErr result (self.new ≡ self.old) }
    {
        let words = label.words();
        let arena = self.arena;
        add_label(arena, &mut self.labels, self.width, words)
    }

    /// The number of the label, if it is there.
    pub fn find(&self, label: &Bits) -> Option<u32>
        ensures place { result ≡ place_of self.now.list label.now.words }
        ensures found { IfSome result (λ n. slice_get self.now.list n ≡ Some label.now.words) }
    {
        place_in(&self.labels, label.words())
    }

    /// The label with this number.
    pub fn label(&self, id: u32) -> LabelView<'b>
        requires { id < length self.now.list }
        ensures words { slice_get self.now.list id ≡ Some result.words }
        ensures width { result.width ≡ self.now.width }
    {
        LabelView::new(self.width, words_at(&self.labels, self.width, id))
    }
}

fn place_in(labels: &IndexSet<&[u64]>, words: &[u64]) -> Option<u32>
    requires { index_set_len labels.now ≤ 4294967295 }
    ensures place { result ≡ place_of (labels_of labels.now.keys) words.now }
    ensures found { IfSome result (λ n. slice_get (labels_of labels.now.keys) n ≡ Some words.now) }
{
    match labels.get_index_of(words) {
        Some(n) => Some(n as u32),
        None => None,
    }
}

fn words_at<'b>(labels: &IndexSet<&'b [u64]>, _width: u32, id: u32) -> &'b [u64]
    requires within { id < index_set_len labels.now }
    requires packed { AllPacked _width (labels_of labels.now.keys) }
    ensures words { slice_get (labels_of labels.now.keys) id ≡ Some result.now }
    ensures packed { IsPacked _width result.now }
{
    match labels.get_index(id as usize) {
        Some(words) => *words,
        None => unreachable!(),
    }
}

fn add_label<'b>(
    arena: &'b Bump,
    labels: &mut IndexSet<&'b [u64]>,
    _width: u32,
    words: &[u64],
) -> Result<(u32, bool), NoMemory>
    requires room { index_set_len labels.old ≤ 4294967295 }
    requires old_packed { AllPacked _width (labels_of labels.old.keys) }
    requires packed { IsPacked _width words.now }
    ensures labels { OnOk result (labels_of labels.new.keys ≡ with_label (labels_of labels.old.keys) words.now) }
    ensures number { IfOk result (λ r. r.0 ≡ number_of (labels_of labels.new.keys) words.now) }
    ensures found { IfOk result (λ r. slice_get (labels_of labels.new.keys) r.0 ≡ Some words.now) }
    ensures fresh { IfOk result (λ r. r.1 ≡ not (has_label (labels_of labels.old.keys) words.now)) }
    ensures err { OnErr result (labels.new.keys ≡ labels.old.keys) }
    ensures room { index_set_len labels.new ≤ 4294967295 }
    ensures unique { IsUnique same_words labels.new }
    ensures packed { AllPacked _width (labels_of labels.new.keys) }
{
    let count = labels.len();
    if let Some(n) = labels.get_index_of(words) {
        return Ok((n as u32, false));
    }
    if count == MOST_LABELS {
        return Err(NoMemory);
    }
    let Ok(placed) = arena.try_alloc_slice_copy(words) else {
        return Err(NoMemory);
    };
    let kept: &'b [u64] = placed;
    let Ok((at, _)) = labels.insert_full(kept) else {
        return Err(NoMemory);
    };
    Ok((at as u32, true))
}
