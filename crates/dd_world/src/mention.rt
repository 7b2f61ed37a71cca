//! The elements of a peer that a world mentions, and one for those that it does not.
ghost use Rattle.std.specs.Prelude.{◌≡◌, ◌<◌, ◌++◌, [], ◌∷◌, All, IfOk, OnOk, if◌then◌else◌, length};
ghost use Rattle.std.specs.List.{flat_map};
ghost use Rattle.dd_set.specs.Sets.{IsRising};
ghost use Rattle.dd_world.specs.Mentions.{AreSeen, IsGap, link_ends, mentions_of};

use dd_concept::{Items, NoMemory};
use dd_interp::{Interp, rising};
use std::alloc::Global;

/// The elements that the lists of the peer and the links mention, in no order.
pub fn mentions(
    alloc: Global,
    peer: u32,
    local: &Interp,
    links: &[(u32, u32, u32, u32)],
) -> Result<Vec<u32>, NoMemory>
    ensures { IfOk result (λ v. v.items ≡ mentions_of peer local.now links.now) }
{
    let mut elements = Vec::new(alloc);
    add_names(&mut elements, local.names.as_slice())?;
    add_roles(&mut elements, local.roles.as_slice())?;
    add_links(&mut elements, peer, links)?;
    Ok(elements)
}

fn add_names(elements: &mut Vec<u32>, names: &[(u32, u32)]) -> Result<(), NoMemory>
    ensures { OnOk result (elements.new.items ≡ elements.old.items ++ flat_map (λ p. p.1 ∷ []) names.now) }
{
    for p in names {
        elements.push(p.1)?;
    }
    Ok(())
}

fn add_roles(elements: &mut Vec<u32>, roles: &[(u32, u32, u32)]) -> Result<(), NoMemory>
    ensures { OnOk result (elements.new.items ≡ elements.old.items ++ flat_map (λ t. t.1 ∷ t.2 ∷ []) roles.now) }
{
    for t in roles {
        elements.push(t.1)?;
        elements.push(t.2)?;
    }
    Ok(())
}

fn add_links(
    elements: &mut Vec<u32>,
    peer: u32,
    links: &[(u32, u32, u32, u32)],
) -> Result<(), NoMemory>
    ensures { OnOk result (elements.new.items ≡ elements.old.items ++ flat_map (link_ends peer) links.now) }
{
    for link in links {
        add_if(elements, link.0 == peer, link.2)?;
        add_if(elements, link.1 == peer, link.3)?;
    }
    Ok(())
}

fn add_if(elements: &mut Vec<u32>, is_own: bool, x: u32) -> Result<(), NoMemory>
    ensures { OnOk result (elements.new.items ≡ elements.old.items ++ (if is_own then x ∷ [] else [])) }
{
    if is_own {
        elements.push(x)?;
    }
    Ok(())
}

/// The mentioned elements, rising, and behind them the size, which is no element, where some element is not mentioned:
/// all those have what the size has.
pub fn seen_elements(alloc: Global, size: u32, mentions: &[u32]) -> Result<Items<u32>, NoMemory>
    requires { All (λ x. x < size) mentions.now }
    ensures { IfOk result (AreSeen size mentions.now) }
{
    let mut elements = rising(alloc, mentions)?;
    if gap(elements.as_slice()) < size as usize {
        elements.push(size)?;
    }
    if elements.len() > u32::MAX as usize {
        return Err(NoMemory);
    }
    Ok(Items::from_vec(elements))
}

fn gap(elements: &[u32]) -> usize
    ensures { IsGap elements.now result }
{
    for k in 0..elements.len() {
        if elements[k] as usize != k {
            return k;
        }
    }
    elements.len()
}
