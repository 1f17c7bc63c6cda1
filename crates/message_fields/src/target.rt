// The target of a request.
ghost use Rattle.std.specs.Prelude.{◌≡◌, ◌≤◌, length, IsTrue, option_map, unwrap_or, false};
ghost use Rattle.std.specs.List.{position, position_or_len};
ghost use Rattle.message_fields.specs.Target.{is_absolute, ends_authority, authority_of, local_part, wants_slash, is_authority, is_target, is_whole_server};

use message_parts::is_same_name;

/// Whether the target is an absolute URI of the scheme `http`, without ASCII case.
fn is_absolute(target: &[u8]) -> bool
    ensures value { result ≡ is_absolute target.now }
    ensures long { IsTrue result → 7 ≤ length target.now }
{
    target.len() >= 7 && is_same_name(&target[..7], b"http://")
}

/// Whether the byte ends an authority.
fn ends_authority(byte: u8) -> bool
    ensures { result ≡ ends_authority byte }
{
    byte == b'/' || byte == b'?'
}

/// Where the first byte that ends an authority stands.
fn first_end(text: &[u8]) -> Option<usize>
    ensures { result ≡ position ends_authority text.now }
{
    text.iter().position(|byte| ends_authority(*byte))
}

/// Where an authority in front ends.
#[tactic(auto, using(lemmas::proofs::Tests::place_is))]
fn authority_end(text: &[u8]) -> usize
    ensures value { result ≡ position_or_len ends_authority text.now }
    ensures inside { result ≤ length text.now }
{
    first_end(text).unwrap_or(text.len())
}

/// The authority of an absolute target, up to the next `/`, `?` or the target's end.
pub fn authority(target: &[u8]) -> Option<&[u8]>
    ensures { option_map (λ authority. authority.now) result ≡ authority_of target.now }
{
    if !is_absolute(target) {
        return None;
    }
    let rest = &target[7..];
    Some(&rest[..authority_end(rest)])
}

/// The target, without scheme and authority where it is absolute.
pub fn local_part(target: &[u8]) -> &[u8]
    ensures { result.now ≡ local_part target.now }
{
    if !is_absolute(target) {
        return target;
    }
    let rest = &target[7..];
    &rest[authority_end(rest)..]
}

/// Whether a `/` has to stand before the local part of the target.
pub fn wants_slash(target: &[u8]) -> bool
    ensures { result ≡ wants_slash target.now }
{
    is_absolute(target) && !local_part(target).starts_with(b"/")
}

/// Whether the authority is not empty and names no user.
fn is_authority(authority: &[u8]) -> bool
    ensures { result ≡ is_authority authority.now }
{
    !authority.is_empty() && !authority.contains(&b'@')
}

/// Whether an absolute target has an authority that is not empty and names no user.
fn has_authority(target: &[u8]) -> bool
    ensures { result ≡ unwrap_or (option_map is_authority (authority_of target.now)) false }
{
    match authority(target) {
        Some(authority) => is_authority(authority),
        None => false,
    }
}

/// Whether the target fits the method: it begins with `/`, is `*` for OPTIONS, or is an absolute
/// URI of the scheme `http` with an authority that is not empty and names no user.
pub fn is_target(method: &[u8], target: &[u8]) -> bool
    ensures { result ≡ is_target method.now target.now }
{
    target.starts_with(b"/")
        || (target == b"*".as_slice() && method == b"OPTIONS".as_slice())
        || has_authority(target)
}

/// Whether the whole server is meant: OPTIONS of an absolute URI that ends with its authority.
pub fn is_whole_server(method: &[u8], target: &[u8]) -> bool
    ensures { result ≡ is_whole_server method.now target.now }
{
    is_absolute(target) && method == b"OPTIONS".as_slice() && local_part(target).is_empty()
}
