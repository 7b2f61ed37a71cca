ghost use Rattle.std.specs.Prelude.{◌≡◌};
ghost use Rattle.dd_cert.specs.Steps.{walk, past_number, past_link, past_element, past_ends, past_local, past_numbers, past_text, past_name, past_role, past_symbols, past_texts};

use crate::form::{LocalForm, WorldForm};
use crate::read::CertErr;
use dd_json::Text;
use dd_text::is_name;

/// The largest number that names a place in a list.
const LARGEST_INDEX: u64 = 4_294_967_295;

/// How many numbers there are, where none is too large. Each function of this file goes on from a place, and gives the
/// place behind what it has passed; a place above 4,294,967,295 is told as that.
pub fn pass_numbers(w: &WorldForm) -> Result<u32, CertErr>
    ensures { result ≡ past_numbers w.now }
{
    let place = pass_links(0, w.links.as_slice())?;
    pass_locals(place, w.locals.as_slice())
}

/// Passes one number.
pub fn pass_number(place: u32, n: u64) -> Result<u32, CertErr>
    ensures { result ≡ past_number place n }
{
    if n > LARGEST_INDEX {
        Err(CertErr::Index { place, value: n })
    } else {
        Ok(place.saturating_add(1))
    }
}

fn pass_links(mut place: u32, links: &[(u64, u64, u64, u64)]) -> Result<u32, CertErr>
    ensures { result ≡ walk past_link place links.now }
{
    for link in links {
        place = pass_link(place, link)?;
    }
    Ok(place)
}

fn pass_link(place: u32, link: &(u64, u64, u64, u64)) -> Result<u32, CertErr>
    ensures { result ≡ past_link place link.now }
{
    let place = pass_number(place, link.0)?;
    let place = pass_number(place, link.1)?;
    let place = pass_number(place, link.2)?;
    pass_number(place, link.3)
}

fn pass_locals(mut place: u32, locals: &[LocalForm]) -> Result<u32, CertErr>
    ensures { result ≡ walk past_local place locals.now }
{
    for local in locals {
        place = pass_local(place, local)?;
    }
    Ok(place)
}

fn pass_local(place: u32, local: &LocalForm) -> Result<u32, CertErr>
    ensures { result ≡ past_local place local.now }
{
    let place = pass_elements(place, local.names.as_slice())?;
    let place = pass_ends(place, local.roles.as_slice())?;
    pass_number(place, local.size)
}

fn pass_elements(mut place: u32, names: &[(Text, u64)]) -> Result<u32, CertErr>
    ensures { result ≡ walk past_element place names.now }
{
    for name in names {
        place = pass_number(place, name.1)?;
    }
    Ok(place)
}

fn pass_ends(mut place: u32, roles: &[(Text, u64, u64)]) -> Result<u32, CertErr>
    ensures { result ≡ walk past_ends place roles.now }
{
    for role in roles {
        let next = pass_number(place, role.1)?;
        place = pass_number(next, role.2)?;
    }
    Ok(place)
}

/// How many texts there are, where each is a name.
pub fn pass_texts(w: &WorldForm) -> Result<u32, CertErr>
    ensures { result ≡ past_texts w.now }
{
    pass_symbols(0, w.locals.as_slice())
}

fn pass_text(place: u32, text: &[u8]) -> Result<u32, CertErr>
    ensures { result ≡ past_text place text.now }
{
    if is_name(text) {
        Ok(place.saturating_add(1))
    } else {
        Err(CertErr::Text { index: place })
    }
}

fn pass_symbols(mut place: u32, locals: &[LocalForm]) -> Result<u32, CertErr>
    ensures { result ≡ walk past_symbols place locals.now }
{
    for local in locals {
        let next = pass_names(place, local.names.as_slice())?;
        place = pass_roles(next, local.roles.as_slice())?;
    }
    Ok(place)
}

fn pass_names(mut place: u32, names: &[(Text, u64)]) -> Result<u32, CertErr>
    ensures { result ≡ walk past_name place names.now }
{
    for name in names {
        place = pass_text(place, name.0.as_slice())?;
    }
    Ok(place)
}

fn pass_roles(mut place: u32, roles: &[(Text, u64, u64)]) -> Result<u32, CertErr>
    ensures { result ≡ walk past_role place roles.now }
{
    for role in roles {
        place = pass_text(place, role.0.as_slice())?;
    }
    Ok(place)
}
