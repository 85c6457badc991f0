// What the benchmarks and the damage test call, which are no Rattle: the check by itself, and the class of a size by itself.
#![tactic(auto)]

ghost use Rattle.std.specs.Prelude.{◌≡◌, ℕ, ◌<◌, length, if◌then◌else◌};
ghost use Rattle.model.specs.Numbers.{large_size};
ghost use Rattle.model.specs.Sizes.{class_of};
ghost use Rattle.account.specs.Decoding.{is_account};
ghost use Rattle.measure.specs.Classes.{size_from, class_sum};

mod rows;

use model::numbers::LARGE_SIZE;

// 1 where the words begin with those of a valid account, else 0, as C is told it.
#[unsafe(no_mangle)]
pub extern "C" fn nostrimel_check(words: &[u32]) -> u32
    ensures { result ≡ (if is_account words.now then 1 else 0) }
{
    u32::from(account::check(words))
}

// Any number as a size that takes a chunk, 1 to 8,191.
fn size_from(number: u32) -> u32
    ensures { (result ≡ size_from number) × (0 < result) × (result < large_size) }
{
    1 + number % (LARGE_SIZE - 1)
}

// The classes of many sizes, added up so that none can be left out, by any way to find the class of a size.
fn class_sum<F: Fn(u32) -> u32>(numbers: &[u32], find_class: F) -> u32
    requires callable { (n : ℕ) → 0 < n → n < large_size → F.pre find_class n }
    requires exact { (n c : ℕ) → 0 < n → n < large_size → F.post find_class n c → c ≡ class_of n }
    ensures { result ≡ class_sum numbers.now (length numbers.now) }
{
    let mut sum: u32 = 0;
    for number in numbers {
        sum = std::num::wrapping_add_u32(sum, find_class(size_from(*number)));
    }
    sum
}

// By arithmetic ..
#[unsafe(no_mangle)]
pub extern "C" fn nostrimel_classes_by_rows(numbers: &[u32]) -> u32
    ensures { result ≡ class_sum numbers.now (length numbers.now) }
{
    class_sum(numbers, rows::class_of_size)
}

// .. by the table, as a request looks one up ..
#[unsafe(no_mangle)]
pub extern "C" fn nostrimel_classes_by_table(numbers: &[u32]) -> u32
    ensures { result ≡ class_sum numbers.now (length numbers.now) }
{
    class_sum(numbers, classes::class_of_size)
}

// .. and by one table for all of them.
#[unsafe(no_mangle)]
pub extern "C" fn nostrimel_classes_by_shared_table(numbers: &[u32]) -> u32
    ensures { result ≡ class_sum numbers.now (length numbers.now) }
{
    let table = classes::table();
    class_sum(numbers, |size| classes::class_in(&table, size))
}
