//! Where coded bytes are cut into parts.
ghost use Rattle.std.specs.Prelude.{◌≡◌, ◌+◌, ◌<◌, [], ◌∷◌, length, take, drop, IsNone, IfSome};
ghost use Rattle.payload_join.specs.Split.{starts_part, split_of, starts_code};

// Whether these are two bytes of zeros and a byte of at least 128.
fn are_start(a: u8, b: u8, c: u8) -> bool
    ensures { result ≡ starts_code a b c }
{
    a == 0 && b == 0 && c >= 128
}

// Whether they stand at a place.
#[tactic(auto, using(crate::proofs::Cuts::cut_is))]
fn is_cut(bytes: &[u8], at: usize) -> bool
    requires { at + 2 < length bytes.now }
    ensures { result ≡ starts_part (drop at bytes.now) }
{
    are_start(bytes[at], bytes[at + 1], bytes[at + 2])
}

// Where the first part ends, if there are several: the next one begins two bytes after that.
pub(crate) fn first_cut(bytes: &[u8]) -> Option<usize>
    ensures none { IsNone result → split_of bytes.now ≡ bytes.now ∷ [] }
    ensures there { IfSome result (λ at. at + 2 < length bytes.now) }
    ensures some { IfSome result (λ at.
        split_of bytes.now ≡ take at bytes.now ∷ split_of (drop (at + 2) bytes.now)) }
{
    if bytes.len() < 3 {
        return None;
    }
    'bytes: for at in 0..bytes.len() - 2 {
        if is_cut(bytes, at) {
            return Some(at);
        }
    }
    None
}
