// Adding an amount to what is held, where the sum stays within a limit.
ghost use Rattle.std.specs.Prelude.{◌≡◌, ◌^◌, ◌<◌, ◌≤◌, ◌+ℤ◌, Some, None, unsigned_abs};

// The sum, where its size is at most the limit.
pub fn sum_within(limit: u32, held: i32, amount: i32) -> Option<i32>
    ensures { elim result [ Some sum ↦ (sum ≡ held +ℤ amount) × (unsigned_abs (held +ℤ amount) ≤ limit) | None ↦ limit < 2 ^ 31 → limit < unsigned_abs (held +ℤ amount) ] }
{
    held.checked_add(amount)
        .filter(|sum| sum.unsigned_abs() <= limit)
}
