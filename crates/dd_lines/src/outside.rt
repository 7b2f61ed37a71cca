ghost use Rattle.std.specs.Prelude.{◌≡◌, ℕ, ◌<◌, ◌≤◌, Option, List, length, take, IfOk, OnErr};
ghost use Rattle.dd_lines.specs.Outside.{Rose, Takes, Gives};

/// A source could not be read.
#[derive(Debug, Drop)]
pub struct Failed;

/// A piece could not be written whole.
#[derive(Debug, Drop)]
pub struct WriteFault;

/// Where bytes come from. Its `left` is what it has left to take, where it tells that.
///
/// The count of faults is a number of 64 bits that stands still at its last value.
pub trait Source {
    ghost left: { Self → Option (List ℕ) };

    ghost fault_count: { Self → ℕ };

    /// Puts the next bytes into the front of the room, and says how many. None at the end of the input.
    fn take(&mut self, room: &mut [u8]) -> Result<usize, Failed>
        requires { 0 < length room.old }
        ensures bound { IfOk result (λ n. n ≤ length room.new) }
        ensures bytes { IfOk result (λ n. Takes (left self.old) (left self.new) n room.new) }
        ensures same { OnErr result (left self.new ≡ left self.old) }
        ensures failed { OnErr result (Rose (fault_count self.old) (fault_count self.new)) }
        ensures counts { fault_count self.old ≤ fault_count self.new };

    /// How many calls of `take` failed.
    fn faults(&self) -> u64
        ensures { result ≡ fault_count self.now };
}

/// Where bytes go. Its `given` is what it was given so far, where it tells that.
///
/// The count of faults is a number of 64 bits that stands still at its last value.
pub trait Sink {
    ghost given: { Self → Option (List ℕ) };

    ghost fault_count: { Self → ℕ };

    /// Takes a front of the piece, of at least one byte, and says how many bytes that is.
    fn give(&mut self, piece: &[u8]) -> Result<usize, Failed>
        requires { 0 < length piece.now }
        ensures some { IfOk result (λ n. 0 < n) }
        ensures bound { IfOk result (λ n. n ≤ length piece.now) }
        ensures bytes { IfOk result (λ n. Gives (given self.old) (given self.new) (take n piece.now)) }
        ensures same { OnErr result (given self.new ≡ given self.old) }
        ensures failed { OnErr result (Rose (fault_count self.old) (fault_count self.new)) }
        ensures counts { fault_count self.old ≤ fault_count self.new };

    /// How many calls of `give` failed.
    fn faults(&self) -> u64
        ensures { result ≡ fault_count self.now };
}
