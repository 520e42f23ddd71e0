// Internal to the product: looking the number of a virtual link up.
#![tactic(auto)]

ghost use Rattle.std.specs.Prelude.{◌≤◌, length};
ghost use Rattle.table_lookup.specs.Places.{Rising, Found};

// The place of a number among the first count, which rise.
pub fn place_of(numbers: &[u16], count: u16, number: u64) -> Option<usize>
    requires { (count ≤ length numbers.now) × Rising numbers.now count }
    ensures { Found numbers.now count number result }
{
    numbers[..usize::from(count)]
        .binary_search_by_key(&number, |&n| u64::from(n))
        .ok()
}
