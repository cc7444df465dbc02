//! The degrade orders.

ghost use Rattle.std.specs.Prelude.{◌≡◌, ◌<◌, ◌≤◌, ◌^◌, ◌*◌, length, bytes_eq, count_by, flat_map};
ghost use Rattle.std.specs.List.{list_any};
ghost use Rattle.cat_conditions.specs.Counts as spec;
ghost use Rattle.cat_conditions.specs.Conditions.{DegradesTooOften};
ghost use Rattle.cat_conditions.specs.Offences.{Finds};
ghost use Rattle.cat_types.specs.Mentions.{event_versions, is_over};
ghost use Rattle.cat_types.specs.Shown.{shown, all_shown};

use crate::pieces::Piece;
use cn_base::Text;
use cn_base::tree::Item;

/// How often a name stands in a list.
fn count_in(list: &[Text], name: &Text) -> u64
    ensures value { result ≡ count_by (λ y. bytes_eq name.now y) list.now }
    ensures small { result ≤ length list.now }
{
    let mut count = 0;
    for other in list {
        if name.as_str() == other.as_str() {
            count += 1;
        }
    }
    count
}

/// How often a piece, if it is a degrade order, mentions an event.
fn mentions_in(piece: &Piece<'_>, name: &Text) -> u64
    ensures { result ≡ count_by (λ y. bytes_eq name.now y) (spec.mentioned (shown piece.now)) }
{
    match piece {
        Piece::Item(Item::Degrade(list)) => count_in(list.as_slice(), name),
        _ => 0,
    }
}

/// How often all orders among these mention an event.
fn mentions(pieces: &[Piece<'_>], name: &Text) -> u128
    requires { length pieces.now < 2 ^ 32 }
    ensures { result ≡ count_by (λ y. bytes_eq name.now y) (flat_map spec.mentioned (all_shown pieces.now)) }
{
    let mut sum = 0;
    for piece in pieces {
        sum += mentions_in(piece, name) as u128;
    }
    sum
}

/// How many versions the piece has, if it is the event of this name.
fn versions_in(piece: &Piece<'_>, name: &Text) -> Option<usize>
    ensures { result ≡ event_versions name.now (spec.versions_count (shown piece.now)) }
{
    match piece {
        Piece::Item(Item::Event(other, _, _, versions)) => {
            if name.as_str() == other.as_str() {
                Some(versions.len())
            } else {
                None
            }
        }
        _ => None,
    }
}

/// How many versions the event of this name has.
fn versions(pieces: &[Piece<'_>], name: &Text) -> usize
    ensures { result ≡ spec.versions_of (all_shown pieces.now) name.now }
{
    for piece in pieces {
        if let Some(count) = versions_in(piece, name) {
            return count;
        }
    }
    0
}

/// Whether the orders up to now mention an event as often as it has versions.
#[tactic(auto, unfolding(crate::specs::Mentions::is_over))]
fn is_too_often(pieces: &[Piece<'_>], so_far: &[Piece<'_>], name: &Text) -> bool
    requires { length so_far.now < 2 ^ 32 }
    ensures { result ≡ is_over (all_shown pieces.now) (all_shown so_far.now) name.now }
{
    versions(pieces, name) as u128 <= mentions(so_far, name)
}

/// Whether the orders up to now mention one of these events as often as it has versions.
fn has_too_many(pieces: &[Piece<'_>], so_far: &[Piece<'_>], list: &[Text]) -> bool
    requires { length so_far.now < 2 ^ 32 }
    ensures { result ≡ list_any (is_over (all_shown pieces.now) (all_shown so_far.now)) list.now }
{
    for name in list {
        if is_too_often(pieces, so_far, name) {
            return true;
        }
    }
    false
}

#[tactic(auto, unfolding(crate::specs::Mentions::is_over))]
fn degrades_too_often(pieces: &[Piece<'_>], so_far: &[Piece<'_>], piece: &Piece<'_>) -> bool
    requires { length so_far.now < 2 ^ 32 }
    ensures { result ≡ spec.degrades_too_often (spec.versions_of (all_shown pieces.now)) (flat_map spec.mentioned (all_shown so_far.now)) (shown piece.now) }
{
    match piece {
        Piece::Item(Item::Degrade(list)) => has_too_many(pieces, so_far, list.as_slice()),
        _ => false,
    }
}

/// The place of the first degrade order with a mention too many. Where the earlier conditions hold, there
/// are at most 48 mentions before it.
pub fn first_too_often(pieces: &[Piece<'_>]) -> Option<u32>
    requires { length pieces.now < 2 ^ 32 }
    ensures { Finds (length pieces.now) (DegradesTooOften (all_shown pieces.now)) result }
{
    for (place, piece) in pieces.iter().enumerate() {
        if degrades_too_often(pieces, &pieces[..place + 1], piece) {
            return Some(place as u32);
        }
    }
    None
}
