//! The beginning of a call about a label.
ghost use Rattle.std.specs.Prelude.{◌≡◌, ◌≤◌, Ok, None, false, IfOk, IfSome, OnOk, OnErr, length};
ghost use Rattle.dd_table.specs.Labels.{has_label};
ghost use Rattle.dd_graph.specs.Goes.{Begins, Idles, Restarts, Stays};

use crate::kernel::Kernel;
use dd_set::{Bits, NoMemory};
use std::alloc::Global;

impl<'b> Kernel<'b> {
    /// Begins a call about the label that may put this many. None where the label is new and there is no room for it.
    pub(crate) fn begin(
        &mut self,
        alloc: Global,
        label: &Bits,
        budget: u32,
    ) -> Result<Option<u32>, NoMemory>
        requires { label.now.width ≡ self.old.table.width }
        ensures begins { IfOk result (λ o. IfSome o (λ id. Begins id label.now.words budget self.old self.new)) }
        ensures full { result ≡ Ok None → (budget ≡ 0) × (has_label self.old.table.list label.now.words ≡ false) × Idles self.old self.new }
        ensures err { OnErr result (Stays self.old self.new) }
    {
        if let Some(id) = self.table.find(label) {
            self.restart(alloc, id, budget)?;
            self.mark(id);
            return Ok(Some(id));
        }
        if budget == 0 {
            return Ok(None);
        }
        let goal = self.table.len();
        self.restart(alloc, goal, budget)?;
        let id = self.add(alloc, label, false)?;
        Ok(Some(id))
    }

    /// Nothing is known to be reached yet.
    fn restart(&mut self, alloc: Global, goal: u32, budget: u32) -> Result<(), NoMemory>
        ensures ok { OnOk result (Restarts goal budget self.old self.new) }
        ensures err { OnErr result (Idles self.old self.new) }
    {
        let marks = vec![in alloc; false; self.table.len() as usize]?;
        self.reached = marks;
        self.goal = goal;
        self.left = budget;
        self.next = None;
        Ok(())
    }
}
