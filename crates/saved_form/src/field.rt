// The numbers of a file: their order, and what each may be.
ghost use Rattle.std.specs.Prelude.{◌≡◌};
ghost use Rattle.saved_form.specs.Fields.{allowed, field_at, follows, has_field};

// The form that is written.
pub const FORM: u64 = 1;

// Numbers before the positions, and numbers of a position.
pub const HEAD_FIELDS: usize = 23;

pub const POSITION_FIELDS: usize = 4;

// Numbers of the fields that stand out.
const CAP_MARK: usize = 9;

const CAP_COUNT: usize = 10;

const CEILING: usize = 11;

pub const POSITION_COUNT: usize = 22;

// What a number may be as it is met.
#[derive(Clone, Copy)]
pub enum Kind {
    Any,
    // 0 or 1.
    Flag,
    // The count of a trade cap, which stands only after a mark of 1.
    AfterMark,
    // The bit pattern of a float, but not that of a negative zero.
    Pattern,
    // At most 64.
    Positions,
}

#[derive(Clone, Copy)]
pub struct Field {
    // The first form that has it. Read from an earlier one it is 0, as at opening.
    pub since: u64,
    pub kind: Kind,
}

// The numbers before the positions in their order, cash first, then the numbers of a position; as any number past them.
pub fn nth_field(i: usize) -> Field
    ensures { result ≡ field_at i }
{
    Field {
        since: 1,
        kind: kind_of(i),
    }
}

fn kind_of(i: usize) -> Kind
    ensures { result ≡ (field_at i).kind }
{
    match i {
        ..6 => Kind::Any,
        ..9 => Kind::Pattern,
        CAP_MARK => Kind::Flag,
        CAP_COUNT => Kind::AfterMark,
        CEILING => Kind::Any,
        ..14 => Kind::Flag,
        POSITION_COUNT => Kind::Positions,
        _ => Kind::Any,
    }
}

// Whether a number may stand as it is met.
#[tactic(auto, unfolding(crate::specs::Fields::allowed))]
pub fn allows(kind: Kind, n: u64) -> bool
    ensures { result ≡ allowed kind n }
{
    match kind {
        Kind::Any | Kind::AfterMark => true,
        Kind::Flag => n < 2,
        Kind::Pattern => n != 0x8000_0000_0000_0000,
        Kind::Positions => n <= 64,
    }
}

// "A trade cap is 0, or 1 and the count"
#[tactic(auto, unfolding(crate::specs::Fields::follows))]
fn follows(kind: Kind, before: u64) -> bool
    ensures { result ≡ follows kind before }
{
    match kind {
        Kind::AfterMark => before == 1,
        _ => true,
    }
}

// Whether a file of a form has the field, after the number before it.
#[tactic(auto, unfolding(crate::specs::Fields::has_field))]
pub fn stands(form: u64, f: Field, before: u64) -> bool
    ensures { result ≡ has_field form f before }
{
    f.since <= form && follows(f.kind, before)
}
