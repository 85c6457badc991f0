// The library for C. Each function answers 0 or the papers' number of the refusal, and writes the answer's values, if it has any,
// through the pointers lent for them. include/nostrimel.h says what a caller must keep.
#![tactic(auto)]

ghost use Rattle.std.specs.Prelude.{◌≡◌, length, unwrap_or};
ghost use Rattle.std.proofs.Math.Option.{some};
ghost use Rattle.model.specs.Calls as rules;
ghost use Rattle.model.specs.Calls.{reading, looked_of};
ghost use Rattle.model.specs.declared.Operation.TheVariants as operation;
ghost use Rattle.calls.specs.Calls.{answer_of, meta_after, text_after, list_after};
ghost use Rattle.capi.specs.Values.{first_or, second_or, told_of};

use model::{Answer, Call, Holding, Operation};

// An answer as C is told it: the refusal's number, 0 for none, as include/nostrimel.h promises it, and the first and the second value,
// where there are such.
#[derive(Clone, Copy, PartialEq, Eq, Debug)]
struct Told {
    refusal: u32,
    first: Option<u32>,
    second: Option<u32>,
}

// The one place where an answer is taken apart.
impl From<Answer> for Told {
    ghost from_gives = { λ answer told. told ≡ told_of answer };

    fn from(answer: Answer) -> Told {
        let (refusal, first, second) = match answer {
            Answer::Granted { offset, looked } => (0, Some(looked), Some(offset)),
            Answer::Denied { refusal, looked } => (u32::from(refusal), Some(looked), None),
            Answer::Refused(refusal) => (u32::from(refusal), None, None),
            Answer::Done => (0, None, None),
            Answer::Counted(count) => (0, Some(count), None),
            Answer::Block(group, room) => (0, Some(group), Some(room)),
        };
        Told {
            refusal,
            first,
            second,
        }
    }
}

// The value goes out, where there is one; else nothing is written.
fn put<T: Copy>(to: &mut T, value: Option<T>)
    ensures { to.new ≡ unwrap_or value to.old }
{
    if let Some(value) = value {
        *to = value;
    }
}

#[unsafe(no_mangle)]
pub extern "C" fn nostrimel_init(meta: &mut [u32], pages: u32) -> u32
    ensures value { result ≡ (reading (answer_of meta.old (rules.init pages))).refusal }
    ensures meta_after { meta.new ≡ meta_after meta.old (rules.init pages) }
{
    Told::from(calls::init(meta, pages)).refusal
}

#[tactic(auto, using(crate::proofs::Values::looked_told))]
#[unsafe(no_mangle)]
pub extern "C" fn nostrimel_allocate(
    meta: &mut [u32],
    group: u32,
    size: u32,
    offset: &mut u32,
    looked: &mut u32,
) -> u32
    ensures value { result ≡ (reading (answer_of meta.old (rules.act (rules.group (record { group = group; operation = operation.Allocate size }))))).refusal }
    ensures meta_after { meta.new ≡ meta_after meta.old (rules.act (rules.group (record { group = group; operation = operation.Allocate size }))) }
    ensures offset_after { offset.new ≡ second_or offset.old (reading (answer_of meta.old (rules.act (rules.group (record { group = group; operation = operation.Allocate size }))))).values }
    ensures looked_after { some looked.new ≡ looked_of (answer_of meta.old (rules.act (rules.group (record { group = group; operation = operation.Allocate size })))) }
{
    let request = Call {
        group,
        operation: Operation::Allocate(size),
    };
    let told = Told::from(calls::call(meta, request));
    put(looked, told.first);
    put(offset, told.second);
    told.refusal
}

#[unsafe(no_mangle)]
pub extern "C" fn nostrimel_free(meta: &mut [u32], group: u32, offset: u32) -> u32
    ensures value { result ≡ (reading (answer_of meta.old (rules.act (rules.group (record { group = group; operation = operation.Free offset }))))).refusal }
    ensures meta_after { meta.new ≡ meta_after meta.old (rules.act (rules.group (record { group = group; operation = operation.Free offset }))) }
{
    let request = Call {
        group,
        operation: Operation::Free(offset),
    };
    Told::from(calls::call(meta, request)).refusal
}

#[unsafe(no_mangle)]
pub extern "C" fn nostrimel_reset(meta: &mut [u32], group: u32, count: &mut u32) -> u32
    ensures value { result ≡ (reading (answer_of meta.old (rules.act (rules.group (record { group = group; operation = operation.Reset }))))).refusal }
    ensures meta_after { meta.new ≡ meta_after meta.old (rules.act (rules.group (record { group = group; operation = operation.Reset }))) }
    ensures count_after { count.new ≡ first_or count.old (reading (answer_of meta.old (rules.act (rules.group (record { group = group; operation = operation.Reset }))))).values }
{
    let request = Call {
        group,
        operation: Operation::Reset,
    };
    let told = Told::from(calls::call(meta, request));
    put(count, told.first);
    told.refusal
}

#[unsafe(no_mangle)]
pub extern "C" fn nostrimel_trim(meta: &mut [u32], count: &mut u32) -> u32
    ensures value { result ≡ (reading (answer_of meta.old (rules.act rules.trim))).refusal }
    ensures meta_after { meta.new ≡ meta_after meta.old (rules.act rules.trim) }
    ensures count_after { count.new ≡ first_or count.old (reading (answer_of meta.old (rules.act rules.trim))).values }
{
    let told = Told::from(calls::trim(meta));
    put(count, told.first);
    told.refusal
}

#[unsafe(no_mangle)]
pub extern "C" fn nostrimel_query(
    meta: &mut [u32],
    offset: u32,
    group: &mut u32,
    room: &mut u32,
) -> u32
    ensures value { result ≡ (reading (answer_of meta.old (rules.act (rules.query offset)))).refusal }
    ensures meta_after { meta.new ≡ meta_after meta.old (rules.act (rules.query offset)) }
    ensures group_after { group.new ≡ first_or group.old (reading (answer_of meta.old (rules.act (rules.query offset)))).values }
    ensures room_after { room.new ≡ second_or room.old (reading (answer_of meta.old (rules.act (rules.query offset)))).values }
{
    let told = Told::from(calls::query(meta, offset));
    put(group, told.first);
    put(room, told.second);
    told.refusal
}

#[unsafe(no_mangle)]
pub extern "C" fn nostrimel_listing(meta: &mut [u32], text: &mut [u8], used: &mut usize) -> u32
    ensures value { result ≡ (reading (answer_of meta.old (rules.act (rules.listing (length text.old))))).refusal }
    ensures meta_after { meta.new ≡ meta_after meta.old (rules.act (rules.listing (length text.old))) }
    ensures text_after { text.new ≡ text_after meta.old text.old }
    ensures used_after { used.new ≡ first_or used.old (reading (answer_of meta.old (rules.act (rules.listing (length text.old))))).values }
{
    let told = Told::from(calls::listing(meta, text));
    put(used, told.first.map(|length| length as usize));
    told.refusal
}

#[unsafe(no_mangle)]
pub extern "C" fn nostrimel_set_ceiling(meta: &mut [u32], group: u32, ceiling: u32) -> u32
    ensures value { result ≡ (reading (answer_of meta.old (rules.act (rules.ceiling group ceiling)))).refusal }
    ensures meta_after { meta.new ≡ meta_after meta.old (rules.act (rules.ceiling group ceiling)) }
{
    Told::from(calls::set_ceiling(meta, group, ceiling)).refusal
}

#[unsafe(no_mangle)]
pub extern "C" fn nostrimel_holdings(meta: &mut [u32], list: &mut [Holding]) -> u32
    ensures value { result ≡ (reading (answer_of meta.old (rules.act (rules.holdings (length list.old))))).refusal }
    ensures meta_after { meta.new ≡ meta_after meta.old (rules.act (rules.holdings (length list.old))) }
    ensures list_after { list.new ≡ list_after meta.old list.old }
{
    Told::from(calls::holdings(meta, list)).refusal
}
