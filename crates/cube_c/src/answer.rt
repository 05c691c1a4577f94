// Answers in one word: number · 2^56 + value, where number 0 is success. Settings that are answered go to the slots.
ghost use Rattle.std.specs.Prelude.{◌≡◌, ◌≤◌, ◌<◌, ◌^◌, length};
ghost use Rattle.refusals.specs.Refusals.{value};
ghost use Rattle.settings_slots.specs.Slots.{slot_count};
ghost use Rattle.cube.specs.Answers.{packed_value, opened_value, looked_value};
ghost use Rattle.cube_c.specs.Answer.{value_limit, word_of, refusal_word, packed_word, opened_word, looked_word};
ghost use Rattle.cube_c.specs.Boundary.{Storable, slots_after};

use refusals::Refusal;
use refusals::numbers::numbered;
use settings::Settings;
use settings::legal::sample_count;
use settings_slots::slots::put_settings;

// What the value of an answer is kept below, 2^56: the number stands above it.
pub const VALUE_LIMIT: u64 = 0x100_0000_0000_0000;

// A number of eight bits with a value below it in the word.
pub fn word(number: u64, value: u64) -> u64
    requires number_bound { number < 256 }
    requires value_lt_value_limit { value < value_limit }
    ensures { result ≡ word_of number value }
{
    number * VALUE_LIMIT + value
}

// The word of a refusal.
pub fn refusal_word(w: Refusal) -> u64
    requires { value w < value_limit }
    ensures { result ≡ refusal_word w }
{
    let told = numbered(w);
    word(told.number, told.value)
}

// Success is the file's length.
pub fn packed_word(r: Result<u64, Refusal>) -> u64
    requires { packed_value r < value_limit }
    ensures { result ≡ packed_word r }
{
    match r {
        Ok(length) => word(0, length),
        Err(w) => refusal_word(w),
    }
}

// Success is the number of samples.
pub fn opened_word(r: Result<Settings, Refusal>) -> u64
    requires { opened_value r < value_limit }
    ensures { result ≡ opened_word r }
{
    packed_word(r.map(|s| sample_count(s.image)))
}

// Success has no value beside the settings.
pub fn looked_word(r: Result<Settings, Refusal>) -> u64
    requires { looked_value r < value_limit }
    ensures { result ≡ looked_word r }
{
    packed_word(r.map(|_| 0))
}

// The settings of an answer; after a refusal the slots are left as they are.
pub fn put_answer(r: Result<Settings, Refusal>, l: &mut [i32])
    requires slot_count_in_bounds { slot_count ≤ length l.old }
    requires storable { Storable r }
    ensures { l.new ≡ slots_after r l.old }
{
    if let Ok(s) = r {
        put_settings(s, l);
    }
}
