// Whether keys and jobs are the same.
ghost use Rattle.std.specs.Prelude.{◌≡◌, ◌↔◌, IsTrue};
ghost use Rattle.dd_task.specs.Keys.{is_same_key};

use crate::job::{Budget, Job, Key};
use dd_peer::{same_pinned, same_query};

/// Whether two keys are the same.
pub fn same_key(a: &Key, b: &Key) -> bool
    ensures test { result ≡ is_same_key a.now b.now }
    ensures equal { IsTrue result ↔ (a.now ≡ b.now) }
{
    is_one_key(a, b)
}

/// Whether two jobs are the same in all fields. Versions are compared by what they say.
pub fn same_job(a: &Job, b: &Job) -> bool
    ensures { IsTrue result ↔ (a.now ≡ b.now) }
{
    same_budget(&a.budget, &b.budget)
        && same_numbers(a.relevant.as_slice(), b.relevant.as_slice())
        && same_query(&a.query, &b.query)
        && same_pinned(&a.pinned, &b.pinned)
}

fn is_one_key(a: &Key, b: &Key) -> bool
    ensures { result ≡ is_same_key a.now b.now }
{
    match (a, b) {
        (Key::Root, Key::Root) => true,
        (
            Key::Asked {
                from: h,
                to: i,
                onto: o,
                into_set: k,
            },
            Key::Asked {
                from: g,
                to: j,
                onto: n,
                into_set: l,
            },
        ) => h == g && i == j && o == n && same_numbers(k.as_slice(), l.as_slice()),
        _ => false,
    }
}

fn same_numbers(a: &[u32], b: &[u32]) -> bool
    ensures { IsTrue result ↔ (a.now ≡ b.now) }
{
    a == b
}

fn same_budget(a: &Budget, b: &Budget) -> bool
    ensures { IsTrue result ↔ (a.now ≡ b.now) }
{
    a.expansions == b.expansions && a.verdicts == b.verdicts
}
