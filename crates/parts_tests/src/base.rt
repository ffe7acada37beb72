//! The calls of `sp_base`, each once.

use sp_base::{
    Boxed, ChanName, Fault, List, MAXINT, Memory, Pair, ProcName, Rule, Text, Word, put_decimal,
    put_signed,
};
use std::alloc::Global;
use std::cmp::Ordering;
use std::test::Fail;

fn pair(fork: u32, child: u32) -> Pair {
    Pair { fork, child }
}

fn name_of(alloc: Global, pairs: &[Pair]) -> Result<ProcName, Memory> {
    Ok(ProcName {
        pairs: List::from_slice(alloc, pairs)?,
    })
}

fn deep_name(alloc: Global, last: Pair) -> Result<ProcName, Memory> {
    let mut pairs = List::new(alloc);
    for _ in 0..9_999 {
        pairs.push(pair(1, 2))?;
    }
    pairs.push(last)?;
    Ok(ProcName { pairs })
}

fn order(alloc: Global, one: &[Pair], two: &[Pair]) -> Result<Ordering, Memory> {
    let one = name_of(alloc, one)?;
    let two = name_of(alloc, two)?;
    Ok(one.order(&two))
}

#[test]
fn names_are_ordered_by_fork_and_then_child(rt: HostRuntime) -> Result<(), Fail> {
    let first = [pair(0, 1)];
    let second = [pair(1, 0)];
    let below = [pair(0, 1), pair(0, 0)];
    assert_eq!(rt; order(rt.alloc(), &[], &first)?, Ordering::Less);
    assert_eq!(rt; order(rt.alloc(), &first, &second)?, Ordering::Less);
    assert_eq!(rt; order(rt.alloc(), &below, &first)?, Ordering::Greater);
    assert_eq!(rt; order(rt.alloc(), &below, &second)?, Ordering::Less);
    Ok(())
}

#[test]
fn a_name_is_itself_alone(rt: HostRuntime) -> Result<(), Fail> {
    let first = name_of(rt.alloc(), &[pair(0, 1)])?;
    let second = name_of(rt.alloc(), &[pair(1, 0)])?;
    assert!(rt; first.is(&first));
    assert!(rt; !first.is(&second));
    Ok(())
}

fn channel(alloc: Global, child: u32, nth: u32) -> Result<ChanName, Memory> {
    let owner = name_of(alloc, &[pair(0, child)])?;
    Ok(ChanName { owner, nth })
}

#[test]
fn channels_are_ordered_by_owner_and_then_number(rt: HostRuntime) -> Result<(), Fail> {
    let one = channel(rt.alloc(), 1, 7)?;
    let two = channel(rt.alloc(), 2, 3)?;
    assert_eq!(rt; one.order(&two), Ordering::Less);
    let copy = one.duplicate(rt.alloc())?;
    assert_eq!(rt; one.order(&copy), Ordering::Equal);
    Ok(())
}

#[test]
fn the_text_of_a_channel(rt: HostRuntime) -> Result<(), Fail> {
    let one = channel(rt.alloc(), 1, 7)?;
    let mut out = Vec::new(rt.alloc());
    one.put(&mut out)?;
    assert_eq!(rt; out.as_slice(), b"0/0.1#7".as_slice());
    Ok(())
}

#[test]
fn a_channel_shown(rt: HostRuntime) -> Result<(), Fail> {
    let two = channel(rt.alloc(), 2, 3)?;
    assert_eq!(rt; format!(in rt.alloc(); "{two}")?.as_str(), "0/0.2#3");
    Ok(())
}

#[test]
fn names_of_ten_thousand_pairs_are_compared(rt: HostRuntime) -> Result<(), Fail> {
    let name = deep_name(rt.alloc(), pair(1, 2))?;
    let other = deep_name(rt.alloc(), pair(1, 3))?;
    assert_eq!(rt; name.order(&other), Ordering::Less);
    let copy = name.duplicate(rt.alloc())?;
    assert_eq!(rt; name.order(&copy), Ordering::Equal);
    Ok(())
}

#[test]
fn the_text_of_a_name_of_ten_thousand_pairs(rt: HostRuntime) -> Result<(), Fail> {
    let name = deep_name(rt.alloc(), pair(1, 2))?;
    let mut out = Vec::new(rt.alloc());
    name.put(&mut out)?;
    assert_eq!(rt; out.len(), 40_001);
    Ok(())
}

#[test]
fn a_name_of_ten_thousand_pairs_shown(rt: HostRuntime) -> Result<(), Fail> {
    let other = deep_name(rt.alloc(), pair(1, 3))?;
    let text = format!(in rt.alloc(); "{other}")?;
    assert_eq!(rt; text.len(), 40_001);
    Ok(())
}

#[test]
fn texts_of_rules_and_faults(rt: HostRuntime) -> Result<(), Fail> {
    assert_eq!(rt; Rule::Y14.name(), "Y14");
    assert_eq!(rt; Fault::F18.name(), "F18");
    let (rule, fault) = (Rule::L6, Fault::F1);
    assert_eq!(rt; format!(in rt.alloc(); "{rule} {fault}")?.as_str(), "L6 F1");
    Ok(())
}

#[test]
fn a_list_and_its_items(rt: HostRuntime) -> Result<(), Fail> {
    let mut list = List::new(rt.alloc());
    assert!(rt; list.is_empty());
    list.push(3u32)?;
    list.push(4)?;
    if let Some(x) = list.get_mut(1) {
        *x = 5;
    }
    assert_eq!(rt; list.len(), 2);
    assert_eq!(rt; list.get(1).copied(), Some(5));
    assert_eq!(rt; list.items(), [3, 5].as_slice());
    Ok(())
}

#[test]
fn a_list_of_a_vector(rt: HostRuntime) -> Result<(), Fail> {
    let list = List::from_slice(rt.alloc(), &[3u32, 5])?;
    assert_eq!(rt; List::of(list.into_vec()).len(), 2);
    Ok(())
}

#[test]
fn a_value_in_a_box(rt: HostRuntime) -> Result<(), Fail> {
    let boxed = Boxed::new(rt.alloc(), 6u32)?;
    assert_eq!(rt; *boxed.get(), 6);
    assert_eq!(rt; boxed.into_inner(), 6);
    Ok(())
}

#[test]
fn a_text_and_its_bytes(rt: HostRuntime) -> Result<(), Fail> {
    let text = Text::of(Vec::from_slice(rt.alloc(), b"ab")?).duplicate(rt.alloc())?;
    assert_eq!(rt; text.bytes(), b"ab".as_slice());
    Ok(())
}

#[test]
fn a_word_and_its_text(rt: HostRuntime) -> Result<(), Fail> {
    let word = Word::of(String::from_str(rt.alloc(), "cd")?);
    assert_eq!(rt; word.text(), "cd");
    Ok(())
}

#[test]
fn a_list_that_changes(rt: HostRuntime) -> Result<(), Fail> {
    let mut list = List::from_slice(rt.alloc(), &[1u32, 2])?;
    list.extend_from_slice(&[3, 4, 5])?;
    assert_eq!(rt; list.pop(), Some(5));
    assert_eq!(rt; list.replace(1, 7), 2);
    list.swap(0, 3);
    assert_eq!(rt; list.items(), [4, 7, 3, 1].as_slice());
    Ok(())
}

#[test]
fn a_list_cut_and_joined(rt: HostRuntime) -> Result<(), Fail> {
    let mut list = List::from_slice(rt.alloc(), &[4u32, 7, 3, 1])?;
    list.truncate(2);
    let mut all = list.join(List::from_slice(rt.alloc(), &[8])?)?;
    assert_eq!(rt; all.items(), [4, 7, 8].as_slice());
    all.truncate(0);
    assert_eq!(rt; all.pop(), None);
    Ok(())
}

#[test]
fn numbers_in_decimal(rt: HostRuntime) -> Result<(), Fail> {
    let mut out = Vec::new(rt.alloc());
    put_decimal(&mut out, 0)?;
    put_decimal(&mut out, 18_446_744_073_709_551_615)?;
    put_signed(&mut out, -MAXINT)?;
    put_signed(&mut out, 42)?;
    assert_eq!(rt;
        out.as_slice(),
        b"018446744073709551615-922337203685477580742".as_slice()
    );
    Ok(())
}
