// The kinds of a record.
// Stays a number: a kind byte in a record is any number, and each has its answer.
ghost use Rattle.std.specs.Prelude.{◌≡◌, ◌≤◌, IfSome};
ghost use Rattle.jobs.specs.Kinds.{symbology_of};
ghost use Rattle.jobs.specs.Found.{known_body};

// The symbology that a kind draws.
// Stays a function: `symbology_of` (specs/Kinds.antt) is a definition of its own, since a kind with a longer field will part the two numbers.
pub fn symbology_of(kind: u8) -> u8
    ensures { result ≡ symbology_of kind }
{
    kind
}

// The bytes behind a kind byte: mode, count and data field. None for a byte that is no kind.
#[tactic(auto, unfolding(crate::specs::Kinds::body_of, crate::specs::Kinds::known, crate::specs::Kinds::field_of, crate::specs::Kinds::fields))]
pub fn body_of(kind: u8) -> Option<usize>
    ensures value { result ≡ known_body kind }
    ensures mode_and_count { IfSome result (λ body. 2 ≤ body) }
{
    match kind {
        1 | 2 | 4 | 5 | 6 => Some(34),
        3 => Some(36),
        7 => Some(15),
        8 => Some(10),
        9 => Some(14),
        _ => None,
    }
}
