//! A host as the command line writes it, `A.B.C.D:PORT`, and as eight bytes: four of the address, and the port in four, high byte first.
//! In the clauses 46 is the dot and 58 the colon.

ghost use Rattle.std.specs.Prelude.{◌≡◌, ℕ, ◌≤◌, ◌∷◌, ◌++◌, List, IfSome, IsSome, MatchOption};
ghost use Rattle.mq_bytes.specs.Decimal.{digits_of};
ghost use Rattle.store_open.specs.Options.{IsHost, host_text};

use crate::number::read_number;

// The part of an address in front of the first dot, and what stands behind that.
fn part_before_dot(text: &str) -> Option<(u32, &str)>
    ensures found { IfSome result (λ r. (text.now ≡ digits_of r.0 ++ 46 ∷ r.1.now) × (r.0 ≤ 255)) }
    ensures exact { (n : ℕ) (rest : List ℕ) → text.now ≡ digits_of n ++ 46 ∷ rest → n ≤ 255
        → MatchOption result ⊥ (λ r. (r.0 ≡ n) × (r.1.now ≡ rest)) }
{
    let (digits, rest) = text.split_once('.')?;
    match read_number(digits, 0, 255) {
        Some(part) => Some((part, rest)),
        None => None,
    }
}

// The part of an address in front of the first colon, and the port behind that.
fn last_part_and_port(text: &str) -> Option<(u32, u32)>
    ensures found { IfSome result (λ r. text.now ≡ digits_of r.0 ++ 58 ∷ digits_of r.1) }
    ensures within { IfSome result (λ r. (r.0 ≤ 255) × (1 ≤ r.1) × (r.1 ≤ 65535)) }
    ensures exact { (n port : ℕ) → text.now ≡ digits_of n ++ 58 ∷ digits_of port → n ≤ 255 → 1 ≤ port → port ≤ 65535 → IsSome result }
{
    let (digits, rest) = text.split_once(':')?;
    let part = read_number(digits, 0, 255)?;
    let port = read_number(rest, 1, 65535)?;
    Some((part, port))
}

/// The eight bytes of the host that the text writes.
pub(crate) fn read_host(text: &str) -> Option<[u8; 8]>
    ensures found { IfSome result (λ host. text.now ≡ host_text host) }
    ensures within { IfSome result (λ host. IsHost host) }
    ensures exact { (host : List ℕ) → IsHost host → text.now ≡ host_text host → IsSome result }
{
    let (first, rest) = part_before_dot(text)?;
    let (second, rest) = part_before_dot(rest)?;
    let (third, rest) = part_before_dot(rest)?;
    let (fourth, port) = last_part_and_port(rest)?;
    Some([
        first as u8,
        second as u8,
        third as u8,
        fourth as u8,
        0,
        0,
        (port / 256) as u8,
        (port % 256) as u8,
    ])
}
