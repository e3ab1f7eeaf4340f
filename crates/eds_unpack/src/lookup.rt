//! Looking up labels by their numbers.

ghost use Rattle.std.specs.Prelude.{◌≡◌, IfSome};
ghost use Rattle.std.specs.Option.{option_copied};
ghost use Rattle.eds_bits.specs.Lists.{Has};
ghost use Rattle.eds_types.specs.Reading.{label_of as label_found};
ghost use Rattle.eds_unpack.specs.Labels.{AreLabels};

use eds_base::Text;
use eds_types::Listing;

/// The label at a place, if the number is listed with it.
#[inline(always)]
fn label_at(entries: &[(Text, i128)], place: usize, number: i128) -> Option<&Text>
    ensures { IfSome result (λ l. Has entries.now (l.now, number)) }
{
    let (label, n) = entries.get(place)?;
    if *n == number { Some(label) } else { None }
}

/// The label that stands as far behind the first one as the number is above the first number. All labels are found so whose
/// numbers come one right after the other.
#[inline(always)]
fn label_by_distance(entries: &[(Text, i128)], number: i128) -> Option<&Text>
    ensures { IfSome result (λ l. Has entries.now (l.now, number)) }
{
    let (_, first) = entries.first()?;
    let place = usize::try_from(number.checked_sub(*first)?).ok()?;
    label_at(entries, place, number)
}

/// The label that a search by halves finds. All labels are found so whose numbers rise.
fn label_by_halves(entries: &[(Text, i128)], number: i128) -> Option<&Text>
    ensures { IfSome result (λ l. Has entries.now (l.now, number)) }
{
    let mut low = 0;
    let mut high = entries.len();
    while low < high {
        let middle = low + (high - low) / 2;
        if let Some(label) = label_at(entries, middle, number) {
            return Some(label);
        }
        if entries[middle].1 < number {
            low = middle + 1;
        } else {
            high = middle;
        }
    }
    None
}

/// The label that is listed with a number, looked for among all of them.
fn label_among_all(listing: &Listing, number: i128) -> Option<&Text>
    requires { AreLabels listing.now }
    ensures { option_copied result ≡ label_found listing.now listing.now number }
{
    for (label, n) in listing.as_slice() {
        if *n == number {
            return Some(label);
        }
    }
    None
}

/// The label that is listed with a number: at once where the numbers come one right after the other, by halves where they rise,
/// and else among all of them.
#[tactic(auto, using(crate::proofs::Labels::entry_is_found))]
pub(crate) fn label_of(listing: &Listing, number: i128) -> Option<&Text>
    requires { AreLabels listing.now }
    ensures { option_copied result ≡ label_found listing.now listing.now number }
{
    let entries = listing.as_slice();
    if let Some(label) = label_by_distance(entries, number) {
        return Some(label);
    }
    if let Some(label) = label_by_halves(entries, number) {
        return Some(label);
    }
    label_among_all(listing, number)
}
