//! Instructions on locals, on the words of the process and on those of monitors.

ghost use Rattle.std.specs.Prelude.{◌≡◌, ◌<◌, ◌≤◌, ◌+ℤ◌, ◌≤ℤ◌, ◌<ℤ◌, pos, length, slice_get, Some};
ghost use Rattle.machine_isa.specs.declared.instr.Instr.TheVariants as i;
ghost use Rattle.vm_instructions.specs.Frames.{AreTwoFirst, IsValueFirst};
ghost use Rattle.vm_instructions.specs.Stack.{Stays, stacked};
ghost use Rattle.vm_instructions.specs.Steps.{Acts, DoesLocal, DoesOwned, DoesShared, HasWord, IsElement};
ghost use Rattle.vm_instructions.specs.Steps.{IsOffset, KeepsWords, LoadsShared, ReachesFirst};
ghost use Rattle.vm_instructions.specs.Steps.{ReachesLast, ReachesPlace, StoresShared};

use crate::operand::Operand;
use crate::stack::{give, take, take_two};
use crate::within::Within;

/// How far an index is from the first, if it is inside.
#[inline(always)]
fn offset(low: i32, len: i32, index: i32) -> Option<i64>
    ensures { IsOffset low len index result }
{
    let k = i64::from(index) - i64::from(low);
    if k < 0 || k >= i64::from(len) {
        return None;
    }
    Some(k)
}

/// A word as a place.
#[inline(always)]
fn place_of(word: i32, offset: i64) -> usize
    requires not_negative { pos 0 ≤ℤ (word +ℤ offset) }
    requires low { pos 0 ≤ℤ offset }
    requires high { offset <ℤ pos 4294967296 }
    ensures { word +ℤ offset ≡ pos result }
{
    (i64::from(word) + offset) as usize
}

/// The word of an element of an array, if the index is inside.
#[inline(always)]
fn element(word: i32, low: i32, len: i32, index: i32) -> Option<usize>
    requires { ReachesPlace word low len index }
    ensures { IsElement word low len index result }
{
    match offset(low, len, index) {
        Some(k) => Some(place_of(word, k)),
        None => None,
    }
}

/// A word that is there.
#[inline(always)]
fn read(words: &[i32], place: usize) -> i32
    requires { place < length words.now }
    ensures { slice_get words.now place ≡ Some result }
{
    words[place]
}

#[inline(always)]
pub(crate) fn load_local(
    top: &mut usize,
    stack: &mut [Operand],
    locals: &[i32],
    word: i32,
) -> Within
    requires room { top.old < length stack.old }
    requires word { HasWord locals.now word }
    ensures does { DoesLocal (i.LoadLocal word) (stacked top.old stack.old) locals.now result
        (stacked top.new stack.new) locals.now }
    ensures acts { Acts result }
    ensures stays { Stays top.new stack.old stack.new }
{
    give(top, stack, read(locals, word as usize));
    Within::Done
}

#[inline(always)]
pub(crate) fn store_local(
    top: &mut usize,
    stack: &[Operand],
    locals: &mut [i32],
    word: i32,
) -> Within
    requires first { IsValueFirst (stacked top.old stack.now) }
    requires within { top.old ≤ length stack.now }
    requires word { HasWord locals.old word }
    ensures does { DoesLocal (i.StoreLocal word) (stacked top.old stack.now) locals.old result
        (stacked top.new stack.now) locals.new }
    ensures acts { Acts result }
    ensures top { top.new ≤ length stack.now }
    ensures words { KeepsWords result locals.old locals.new }
    ensures row { length locals.new ≡ length locals.old }
{
    locals[word as usize] = take(top, stack);
    Within::Done
}

#[inline(always)]
pub(crate) fn load_local_at(
    top: &mut usize,
    stack: &mut [Operand],
    locals: &[i32],
    word: i32,
    low: i32,
    len: i32,
) -> Within
    requires first { IsValueFirst (stacked top.old stack.old) }
    requires within { top.old ≤ length stack.old }
    requires word { ReachesLast locals.now word low len (stacked top.old stack.old) }
    ensures does { DoesLocal (i.LoadLocalAt word low len) (stacked top.old stack.old) locals.now
        result (stacked top.new stack.new) locals.now }
    ensures acts { Acts result }
    ensures stays { Stays top.new stack.old stack.new }
{
    let index = take(top, stack);
    match element(word, low, len, index) {
        Some(at) => {
            give(top, stack, read(locals, at));
            Within::Done
        }
        None => Within::Raises(3),
    }
}

#[inline(always)]
pub(crate) fn store_local_at(
    top: &mut usize,
    stack: &[Operand],
    locals: &mut [i32],
    word: i32,
    low: i32,
    len: i32,
) -> Within
    requires first { AreTwoFirst (stacked top.old stack.now) }
    requires within { top.old ≤ length stack.now }
    requires word { ReachesFirst locals.old word low len (stacked top.old stack.now) }
    ensures does { DoesLocal (i.StoreLocalAt word low len) (stacked top.old stack.now) locals.old
        result (stacked top.new stack.now) locals.new }
    ensures acts { Acts result }
    ensures top { top.new ≤ length stack.now }
    ensures words { KeepsWords result locals.old locals.new }
    ensures row { length locals.new ≡ length locals.old }
{
    let (index, x) = take_two(top, stack);
    match element(word, low, len, index) {
        Some(at) => {
            locals[at] = x;
            Within::Done
        }
        None => Within::Raises(3),
    }
}

#[inline(always)]
pub(crate) fn load_own(top: &mut usize, stack: &mut [Operand], owned: &[i32], word: i32) -> Within
    requires room { top.old < length stack.old }
    requires word { HasWord owned.now word }
    ensures does { DoesOwned (i.LoadOwn word) (stacked top.old stack.old) owned.now result
        (stacked top.new stack.new) owned.now }
    ensures acts { Acts result }
    ensures stays { Stays top.new stack.old stack.new }
{
    give(top, stack, read(owned, word as usize));
    Within::Done
}

#[inline(always)]
pub(crate) fn store_own(top: &mut usize, stack: &[Operand], owned: &mut [i32], word: i32) -> Within
    requires first { IsValueFirst (stacked top.old stack.now) }
    requires within { top.old ≤ length stack.now }
    requires word { HasWord owned.old word }
    ensures does { DoesOwned (i.StoreOwn word) (stacked top.old stack.now) owned.old result
        (stacked top.new stack.now) owned.new }
    ensures acts { Acts result }
    ensures top { top.new ≤ length stack.now }
    ensures words { KeepsWords result owned.old owned.new }
    ensures row { length owned.new ≡ length owned.old }
{
    owned[word as usize] = take(top, stack);
    Within::Done
}

#[inline(always)]
pub(crate) fn load_own_at(
    top: &mut usize,
    stack: &mut [Operand],
    owned: &[i32],
    word: i32,
    low: i32,
    len: i32,
) -> Within
    requires first { IsValueFirst (stacked top.old stack.old) }
    requires within { top.old ≤ length stack.old }
    requires word { ReachesLast owned.now word low len (stacked top.old stack.old) }
    ensures does { DoesOwned (i.LoadOwnAt word low len) (stacked top.old stack.old) owned.now
        result (stacked top.new stack.new) owned.now }
    ensures acts { Acts result }
    ensures stays { Stays top.new stack.old stack.new }
{
    let index = take(top, stack);
    match element(word, low, len, index) {
        Some(at) => {
            give(top, stack, read(owned, at));
            Within::Done
        }
        None => Within::Raises(3),
    }
}

#[inline(always)]
pub(crate) fn store_own_at(
    top: &mut usize,
    stack: &[Operand],
    owned: &mut [i32],
    word: i32,
    low: i32,
    len: i32,
) -> Within
    requires first { AreTwoFirst (stacked top.old stack.now) }
    requires within { top.old ≤ length stack.now }
    requires word { ReachesFirst owned.old word low len (stacked top.old stack.now) }
    ensures does { DoesOwned (i.StoreOwnAt word low len) (stacked top.old stack.now) owned.old
        result (stacked top.new stack.now) owned.new }
    ensures acts { Acts result }
    ensures top { top.new ≤ length stack.now }
    ensures words { KeepsWords result owned.old owned.new }
    ensures row { length owned.new ≡ length owned.old }
{
    let (index, x) = take_two(top, stack);
    match element(word, low, len, index) {
        Some(at) => {
            owned[at] = x;
            Within::Done
        }
        None => Within::Raises(3),
    }
}

#[inline(always)]
pub(crate) fn load_mon(top: &mut usize, stack: &mut [Operand], shared: &[i32], word: i32) -> Within
    requires room { top.old < length stack.old }
    requires word { HasWord shared.now word }
    ensures does { DoesShared word (i.LoadMon word) (stacked top.old stack.old) shared.now result
        (stacked top.new stack.new) shared.now }
    ensures acts { Acts result }
    ensures stays { Stays top.new stack.old stack.new }
{
    give(top, stack, read(shared, word as usize));
    Within::Done
}

#[inline(always)]
pub(crate) fn store_mon(top: &mut usize, stack: &[Operand], shared: &mut [i32], word: i32) -> Within
    requires first { IsValueFirst (stacked top.old stack.now) }
    requires within { top.old ≤ length stack.now }
    requires word { HasWord shared.old word }
    ensures does { DoesShared word (i.StoreMon word) (stacked top.old stack.now) shared.old result
        (stacked top.new stack.now) shared.new }
    ensures acts { Acts result }
    ensures top { top.new ≤ length stack.now }
    ensures words { KeepsWords result shared.old shared.new }
    ensures row { length shared.new ≡ length shared.old }
{
    shared[word as usize] = take(top, stack);
    Within::Done
}

#[inline(always)]
pub(crate) fn load_mon_at(
    top: &mut usize,
    stack: &mut [Operand],
    shared: &[i32],
    word: i32,
    low: i32,
    len: i32,
) -> Within
    requires first { IsValueFirst (stacked top.old stack.old) }
    requires within { top.old ≤ length stack.old }
    requires word { ReachesLast shared.now word low len (stacked top.old stack.old) }
    ensures does { LoadsShared word low len (stacked top.old stack.old) shared.now result
        (stacked top.new stack.new) }
    ensures acts { Acts result }
    ensures stays { Stays top.new stack.old stack.new }
{
    let index = take(top, stack);
    match element(word, low, len, index) {
        Some(at) => {
            give(top, stack, read(shared, at));
            Within::Done
        }
        None => Within::Raises(3),
    }
}

#[inline(always)]
pub(crate) fn store_mon_at(
    top: &mut usize,
    stack: &[Operand],
    shared: &mut [i32],
    word: i32,
    low: i32,
    len: i32,
) -> Within
    requires first { AreTwoFirst (stacked top.old stack.now) }
    requires within { top.old ≤ length stack.now }
    requires word { ReachesFirst shared.old word low len (stacked top.old stack.now) }
    ensures does { StoresShared word low len (stacked top.old stack.now) shared.old result
        (stacked top.new stack.now) shared.new }
    ensures acts { Acts result }
    ensures top { top.new ≤ length stack.now }
    ensures words { KeepsWords result shared.old shared.new }
    ensures row { length shared.new ≡ length shared.old }
{
    let (index, x) = take_two(top, stack);
    match element(word, low, len, index) {
        Some(at) => {
            shared[at] = x;
            Within::Done
        }
        None => Within::Raises(3),
    }
}
