ghost use Rattle.std.specs.Prelude.{◌≡◌};
ghost use Rattle.dd_rules.specs.Trees.{top_row, bottom_row, and_row, or_row, some_row, all_row};

/// A concept by its form, whose parts are numbers of rows before it.
#[derive(Clone, Copy, PartialEq, Eq, Hash)]
pub enum Row {
    Top,
    Bottom,
    Name(u32),
    Not(u32),
    And(u32, u32),
    Or(u32, u32),
    HasSome(u32, u32),
    HasAll(u32, u32),
}

/// Which of three concepts is meant by a tree: itself, its normal form, or the normal form of its complement.
#[derive(Clone, Copy)]
pub enum Form {
    Itself,
    Normal,
    Complement,
}

pub fn top(form: Form) -> Row
    ensures { result ≡ top_row form }
{
    match form {
        Form::Itself | Form::Normal => Row::Top,
        Form::Complement => Row::Bottom,
    }
}

pub fn bottom(form: Form) -> Row
    ensures { result ≡ bottom_row form }
{
    match form {
        Form::Itself | Form::Normal => Row::Bottom,
        Form::Complement => Row::Top,
    }
}

pub fn conjunction(form: Form, left: u32, right: u32) -> Row
    ensures { result ≡ and_row form left right }
{
    match form {
        Form::Itself | Form::Normal => Row::And(left, right),
        Form::Complement => Row::Or(left, right),
    }
}

pub fn disjunction(form: Form, left: u32, right: u32) -> Row
    ensures { result ≡ or_row form left right }
{
    match form {
        Form::Itself | Form::Normal => Row::Or(left, right),
        Form::Complement => Row::And(left, right),
    }
}

pub fn existential(form: Form, role: u32, part: u32) -> Row
    ensures { result ≡ some_row form role part }
{
    match form {
        Form::Itself | Form::Normal => Row::HasSome(role, part),
        Form::Complement => Row::HasAll(role, part),
    }
}

pub fn universal(form: Form, role: u32, part: u32) -> Row
    ensures { result ≡ all_row form role part }
{
    match form {
        Form::Itself | Form::Normal => Row::HasAll(role, part),
        Form::Complement => Row::HasSome(role, part),
    }
}
