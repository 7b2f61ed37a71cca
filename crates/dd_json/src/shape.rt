use dd_concept::{Items, NoMemory};

/// A text, as its bytes.
pub type Text = Items<u8>;

/// Why a JSON value does not give what is read of it.
#[derive(Debug, Drop)]
pub enum ShapeErr {
    /// It has another form.
    Shape,
    /// Memory ran out, whatever the value is.
    NoMemory,
}

impl From<NoMemory> for ShapeErr {
    ghost use Rattle.std.specs.Prelude.{◌≡◌};
    ghost use Rattle.dd_json.specs.declared.shape.ShapeErr.TheVariants.{NoMemory};

    ghost from_gives = { λ _ e. e ≡ NoMemory };

    fn from(_: NoMemory) -> ShapeErr {
        ShapeErr::NoMemory
    }
}
