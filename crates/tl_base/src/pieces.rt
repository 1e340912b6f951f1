//! Pieces of what lies in memory: how much is given, and how much fits.
ghost use Rattle.std.specs.Prelude.{◌≡◌, ◌+◌, ◌-◌, ◌<◌, ◌≤◌, [], ◌++◌, length, drop, take, min, IfSome, IfNone, vec_capacity};
ghost use Rattle.tl_base.specs.Cuts.{cut_at};

/// How many bytes a read with this number may give.
pub fn most_at(cuts: &[u32], number: u64) -> usize
    ensures some { 0 < result }
    ensures cut { result ≡ cut_at cuts.now number }
{
    match cuts.get(number as usize) {
        Some(cut) if *cut > 0 => *cut as usize,
        _ => usize::MAX,
    }
}

/// Copies as many bytes as fit and may be given, and moves on.
pub fn give(bytes: &[u8], at: &mut usize, most: usize, into: &mut [u8]) -> usize
    requires { 0 < most }
    ensures bytes { drop at.old bytes.now ≡ take result into.new ++ drop at.new bytes.now }
    ensures count { result ≡ min most (min (length into.old) (length (drop at.old bytes.now))) }
    ensures end { result ≡ 0 → 0 < length into.new → drop at.new bytes.now ≡ [] }
{
    if *at >= bytes.len() {
        return 0;
    }
    let rest = &bytes[*at..];
    let count = most.min(into.len().min(rest.len()));
    into[..count].copy_from_slice(&rest[..count]);
    *at += count;
    count
}

/// Appends what fits of a piece, into memory that is there. None where nothing fits.
pub fn put(to: &mut Vec<u8>, room: usize, piece: &[u8]) -> Option<usize>
    requires room { room ≤ vec_capacity to.old }
    requires some { 0 < length piece.now }
    ensures taken { IfSome result (λ n. (0 < n) × (n ≤ length piece.now) × (to.new.items ≡ to.old.items ++ take n piece.now)) }
    ensures count { IfSome result (λ n. n ≡ min (length piece.now) (room - length to.old.items)) }
    ensures full { IfNone result ((to.new.items ≡ to.old.items) × (room ≤ length to.old.items)) }
    ensures capacity { vec_capacity to.old ≤ vec_capacity to.new }
{
    if to.len() >= room {
        return None;
    }
    let count = piece.len().min(room - to.len());
    match to.extend_from_slice(&piece[..count]) {
        Ok(()) => Some(count),
        Err(_) => unreachable!(),
    }
}
