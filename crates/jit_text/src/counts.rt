ghost use Rattle.std.specs.Prelude.{◌≡◌, ◌++◌, ◌%◌, ◌^◌, OnOk, IfOk, length, codes, decimal, count_by, sum_by};
ghost use Rattle.jit_text.specs.Counts.{is_value, is_void, is_stack, is_fuel, is_fault, value_of, sum_of, kinds_text, counts_line};

use ir_meaning::calls::Ended;
use ir_print_names::Page;
use rj_num::NoMemory;
use std::alloc::Global;

fn is_value(ended: Ended) -> bool
    ensures { result ≡ is_value ended }
{
    matches!(ended, Ended::Value(_))
}

fn is_void(ended: Ended) -> bool
    ensures { result ≡ is_void ended }
{
    matches!(ended, Ended::Void)
}

fn is_stack(ended: Ended) -> bool
    ensures { result ≡ is_stack ended }
{
    matches!(ended, Ended::Stack)
}

fn is_fuel(ended: Ended) -> bool
    ensures { result ≡ is_fuel ended }
{
    matches!(ended, Ended::Fuel { .. })
}

fn is_fault(ended: Ended) -> bool
    ensures { result ≡ is_fault ended }
{
    matches!(ended, Ended::Fault { .. })
}

/// The low 64 bits of the number that an answer adds to the sum.
fn low_of(ended: Ended) -> u64
    ensures { result ≡ value_of ended % (2 ^ 64) }
{
    match ended {
        Ended::Value(value) => (value % (1 << 64)) as u64,
        _ => 0,
    }
}

/// The sum of the values modulo 2^64.
fn sum_of(list: &[Ended]) -> u64
    ensures { result ≡ sum_of list.now }
{
    let mut sum = 0u64;
    for ended in list {
        sum = sum.wrapping_add(low_of(*ended));
    }
    sum
}

/// How many answers are values.
fn values(list: &[Ended]) -> usize
    ensures { result ≡ count_by is_value list.now }
{
    list.iter().filter(|ended| is_value(**ended)).count()
}

/// How many answers are void.
fn voids(list: &[Ended]) -> usize
    ensures { result ≡ count_by is_void list.now }
{
    list.iter().filter(|ended| is_void(**ended)).count()
}

/// How many answers are `stack`.
fn stacks(list: &[Ended]) -> usize
    ensures { result ≡ count_by is_stack list.now }
{
    list.iter().filter(|ended| is_stack(**ended)).count()
}

/// How many answers are `fuel`.
fn fuels(list: &[Ended]) -> usize
    ensures { result ≡ count_by is_fuel list.now }
{
    list.iter().filter(|ended| is_fuel(**ended)).count()
}

/// How many answers are faults.
fn faults(list: &[Ended]) -> usize
    ensures { result ≡ count_by is_fault list.now }
{
    list.iter().filter(|ended| is_fault(**ended)).count()
}

/// Adds a text and a number.
fn push_count(page: &mut Page, text: &[u8], count: usize) -> Result<(), NoMemory>
    ensures { OnOk result (page.new ≡ page.old ++ (text.now ++ decimal count)) }
{
    page.write(text)?;
    page.number(count as u128)
}

/// Adds how many answers are of each kind.
fn push_kinds(page: &mut Page, list: &[Ended]) -> Result<(), NoMemory>
    ensures { OnOk result (page.new ≡ page.old ++ kinds_text list.now) }
{
    push_count(page, b" value ", values(list))?;
    push_count(page, b" void ", voids(list))?;
    push_count(page, b" stack ", stacks(list))?;
    push_count(page, b" fuel ", fuels(list))?;
    push_count(page, b" fault ", faults(list))
}

/// Adds the sum of the values.
fn push_sum(page: &mut Page, list: &[Ended]) -> Result<(), NoMemory>
    ensures { OnOk result (page.new ≡ page.old ++ (codes " sum " ++ decimal (sum_of list.now))) }
{
    page.write(b" sum ")?;
    page.number(u128::from(sum_of(list)))
}

/// The line of the counts of a list of answers, and of the sum of its values modulo 2^64.
pub fn counts_line(alloc: Global, list: &[Ended]) -> Result<Vec<u8>, NoMemory>
    ensures { IfOk result (λ text. text.items ≡ counts_line list.now) }
{
    let mut page = Page::new(alloc);
    push_count(&mut page, b"calls ", list.len())?;
    push_kinds(&mut page, list)?;
    push_sum(&mut page, list)?;
    page.write(b"\n")?;
    Ok(page.into_bytes())
}
