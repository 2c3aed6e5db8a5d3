//! Averages.
ghost use Rattle.pdq_value.specs.Averages.{average_of};
ghost use Rattle.std.specs.Prelude.{◌≡◌, ◌*◌, ◌^◌, ◌≤◌, nat_abs};

/// The average of so many numbers with this sum, with two decimal places more than they have, rounded half away from zero.
pub fn average(sum: i128, rows: u64) -> i128
    requires some_row { 1 ≤ rows }
    requires row_limit { rows ≤ 20000000 }
    requires sum_bound { nat_abs sum ≤ rows * 10 ^ 18 }
    ensures value { result ≡ average_of sum rows }
{
    let rows = u128::from(rows);
    let size = ((200 * sum.unsigned_abs() + rows) / (2 * rows)) as i128;
    if sum < 0 { -size } else { size }
}
