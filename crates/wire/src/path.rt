// The path of a target.
ghost use Rattle.std.specs.Prelude.{◌≡◌, ◌≤◌, ◌==◌, IfOk, length, slice_range, true};
ghost use Rattle.std.specs.List.{before_first, position, position_or_len};
ghost use Rattle.message_fields.specs.Target.{local_part, path_of, wants_slash};

use message_fields::{local_part, wants_slash};
use message_parts::TextPiece;
use std::alloc::{AllocError, Global};

// Where the query begins, if there is one.
fn find_query(target: &[u8]) -> Option<usize>
    ensures { result ≡ position (λ byte. byte == 63) target.now }
{
    target.iter().position(|byte| *byte == b'?')
}

// Where the query begins, or else the end.
#[tactic(auto, using(lemmas::proofs::Tests::place_is))]
fn query_at(target: &[u8]) -> usize
    ensures value { result ≡ position_or_len (λ byte. byte == 63) target.now }
    ensures inside { result ≤ length target.now }
{
    find_query(target).unwrap_or(target.len())
}

// What stands before the query.
fn before_query(target: &[u8]) -> &[u8]
    ensures { result.now ≡ before_first (λ byte. byte == 63) target.now }
{
    &target[..query_at(target)]
}

// Where a path lies in a target, from its first place to the one behind its last.
#[tactic(auto, using(crate::proofs::Paths::local_part_is_rest))]
fn path_range(target: &[u8]) -> (usize, usize)
    ensures inside { (result.0 ≤ result.1) × (result.1 ≤ length target.now) }
    ensures value { slice_range target.now result.0 result.1
        ≡ before_first (λ byte. byte == 63) (local_part target.now) }
{
    let local = local_part(target);
    let start = target.len() - local.len();
    (start, start + query_at(local))
}

// The path of a target that has none: a `/` stands before what it has of one.
#[cold]
#[tactic(auto, using(crate::proofs::Paths::path_slash))]
fn path_behind_slash(alloc: Global, target: &TextPiece) -> Result<TextPiece, AllocError>
    requires { wants_slash target.now ≡ true }
    ensures { IfOk result (λ path. path ≡ path_of target.now) }
{
    let mut path = vec![in alloc; b'/']?;
    path.extend_from_slice(before_query(local_part(target.as_bytes())))?;
    TextPiece::from_bytes(alloc, path)
}

/// The path of a target: what stands before its query, and of an absolute URI behind its authority,
/// with a `/` before it where it begins with none. It lies in the target's head but for such a `/`,
/// with which it fails when out of memory.
#[tactic(auto, using(crate::proofs::Paths::path_bare))]
pub(crate) fn path_of(alloc: Global, target: &TextPiece) -> Result<TextPiece, AllocError>
    ensures { IfOk result (λ path. path ≡ path_of target.now) }
{
    if wants_slash(target.as_bytes()) {
        return path_behind_slash(alloc, target);
    }
    let (start, end) = path_range(target.as_bytes());
    target.part(start, end)
}
