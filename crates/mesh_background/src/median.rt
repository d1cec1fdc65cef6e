//! The lower median of some numbers.

ghost use Rattle.std.specs.Prelude.{◌≡◌};
ghost use Rattle.mesh_background.specs.Medians.{lower_median as lower_median_of};

// The lower median of some numbers, whose order changes, or `None` of no numbers: of `n` the one that would stand at place
// `(n - 1) / 2`, from 0, in rising order. To select it costs less than to put all in order.
pub(crate) fn lower_median(members: &mut [i64]) -> Option<i64>
    ensures { result ≡ lower_median_of members.old }
{
    if members.is_empty() {
        return None;
    }
    let middle = (members.len() - 1) / 2;
    let (_lesser, median, _greater) = members.select_nth_unstable(middle);
    Some(*median)
}
