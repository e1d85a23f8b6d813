// Eight numbers of four bytes each: a sum's weights, or the days of weeks.
ghost use Rattle.std.specs.Prelude.{◌≡◌, ℕ, ◌^◌, ◌<◌, slice_index};
ghost use Rattle.std.specs.List.{flat_map};
ghost use Rattle.records.specs.Numbers.{le4};

use records::fields::number_of;
use std::array;

pub fn read_numbers(body: &[u8; 32]) -> [u32; 8]
    ensures bytes { flat_map le4 result ≡ body.now }
    ensures small { (k : ℕ) → slice_index result k < 2 ^ 32 }
{
    let (numbers, _) = body.as_chunks::<4>();
    array::from_fn(|i| number_of(&numbers[i]))
}

pub fn write_numbers(numbers: &[u32; 8]) -> [u8; 32]
    ensures { result ≡ flat_map le4 numbers.now }
{
    let parts = numbers.map(u32::to_le_bytes);
    *parts.as_flattened().as_array().unwrap()
}
