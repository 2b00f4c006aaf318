// The numbered refusals of 01 and 02, one home for all of them.
#![tactic(auto)]

ghost use Rattle.std.specs.Prelude.{◌≡◌};
ghost use Rattle.refusal.specs.Answer.{code_for};
ghost use Rattle.refusal.specs.Numbers.{number_of, field_of};

#[derive(Clone, Copy)]
pub enum Refusal {
    // 1: neither CR LF alone nor 140 bytes ending in CR LF.
    NoLine,
    // 2: one of the 138 bytes is outside 20 to 7E hex.
    BadByte,
    // 3: a field breaks its rule; the number of the first.
    Field(u8),
    // 4: the caller's buffer is too short.
    NoRoom,
    // 5: the table is damaged.
    Damaged,
    // 6: end of day was booked before.
    DayOver,
    // 7: the key is in the table.
    KnownKey,
    // 8: the key, or the elder's, is not in the table.
    UnknownKey,
    // 9: side or series differs.
    OtherSeries,
    // 10: more than is open, or nothing is open.
    NotOpen,
    // 11: more than executed less broken.
    NotExecuted,
    // 12: the table is full.
    Full,
    // 13: no quote row is left, or its executed would be too large.
    RowFull,
}

// The paper's number.
pub fn number(r: Refusal) -> u8
    ensures { result ≡ number_of r }
{
    match r {
        Refusal::NoLine => 1,
        Refusal::BadByte => 2,
        Refusal::Field(_) => 3,
        Refusal::NoRoom => 4,
        Refusal::Damaged => 5,
        Refusal::DayOver => 6,
        Refusal::KnownKey => 7,
        Refusal::UnknownKey => 8,
        Refusal::OtherSeries => 9,
        Refusal::NotOpen => 10,
        Refusal::NotExecuted => 11,
        Refusal::Full => 12,
        Refusal::RowFull => 13,
    }
}

// The field that comes with a 3, and 0 with any other.
pub fn field(r: Refusal) -> u8
    ensures { result ≡ field_of r }
{
    match r {
        Refusal::Field(n) => n,
        _ => 0,
    }
}

// The one number that says a refusal, with its field.
pub fn code(r: Refusal) -> u32
    ensures { result ≡ code_for r }
{
    number(r) as u32 + 256 * field(r) as u32
}
