// How many equal parts the step has at a depth.
ghost use Rattle.std.specs.Prelude.{◌≡◌, ◌^◌, ◌≤◌, nat_le, if◌then◌else◌, Some, None};
ghost use Rattle.filters.specs.Parts.{powers_of_two};

const PARTS: [u8; 7] = [1, 2, 4, 8, 16, 32, 64];

/// How many equal parts the step has at each depth from 0 to 6: number h is 2^h.
pub fn parts_table() -> [u8; 7]
    ensures { result ≡ powers_of_two 7 }
{
    PARTS
}

/// How many equal parts the step has at this depth; no answer past depth 6.
pub fn parts_at(depth: u8) -> Option<u8>
    ensures { result ≡ (if nat_le depth 6 then Some (2 ^ depth) else None) }
{
    if depth > 6 {
        return None;
    }
    Some(parts(depth))
}

pub(crate) fn parts(depth: u8) -> u8
    requires { depth ≤ 6 }
    ensures { result ≡ 2 ^ depth }
{
    parts_table()[usize::from(depth)]
}
