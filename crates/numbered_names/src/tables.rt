//! The tables that lead from the place of a name to its number and back.
ghost use Rattle.std.specs.Prelude.{◌≡◌, ◌==◌, ℕ, ◌<◌, ◌≤◌, slice_index, vec_capacity, vec_len, if◌then◌else◌};
ghost use Rattle.numbered_names.specs.Tables.{AreInverse, number_limit, with_free};

// The number at the first place that no name has taken, a new one where there is none.
pub fn first_free(numbers: &mut Vec<u32>, places: &mut Vec<u32>, taken: usize) -> u32
    requires inverse { AreInverse numbers.old.items places.old.items }
    requires within { taken ≤ vec_len places.old }
    requires few { taken < number_limit }
    requires numbers_room { taken < vec_capacity numbers.old }
    requires places_room { taken < vec_capacity places.old }
    ensures inverse { AreInverse numbers.new.items places.new.items }
    ensures places { places.new.items ≡ with_free taken places.old.items }
    ensures number { result ≡ slice_index numbers.new.items taken }
    ensures numbers_capacity { vec_capacity numbers.old ≤ vec_capacity numbers.new }
    ensures places_capacity { vec_capacity places.old ≤ vec_capacity places.new }
{
    if taken == places.len() {
        let number = taken as u32;
        numbers.push(number).unwrap();
        places.push(number).unwrap();
        return number;
    }
    numbers[taken]
}

// Exchanges the numbers at two places.
pub fn exchange(numbers: &mut Vec<u32>, places: &mut Vec<u32>, place: usize, other: usize)
    requires inverse { AreInverse numbers.old.items places.old.items }
    requires few { vec_len places.old ≤ number_limit }
    requires place { place < vec_len places.old }
    requires other { other < vec_len places.old }
    ensures inverse { AreInverse numbers.new.items places.new.items }
    ensures len { vec_len places.new ≡ vec_len places.old }
    ensures places { (number : ℕ) → number < vec_len places.old → slice_index places.new.items number ≡
        (if slice_index places.old.items number == place then other else
        (if slice_index places.old.items number == other then place else
        slice_index places.old.items number)) }
    ensures numbers_capacity { vec_capacity numbers.new ≡ vec_capacity numbers.old }
    ensures places_capacity { vec_capacity places.new ≡ vec_capacity places.old }
{
    let number = numbers[place];
    let moved = numbers[other];
    numbers[place] = moved;
    numbers[other] = number;
    places[moved as usize] = place as u32;
    places[number as usize] = other as u32;
}
