ghost use Rattle.dd_pin.specs.Laws.{PinsStay};

/// The law that later puts change nothing that a pin names. The call does nothing.
pub fn pins_stay()
    ensures { PinsStay }
{}
