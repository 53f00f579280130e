//! Labels of rows.

ghost use Rattle.std.specs.Prelude.{◌≡◌, ◌↔◌, ℕ, true, false, IfOk, IfErr, IsOk, IfSome, None, option_copied, map, length, decimal};
ghost use Rattle.std.specs.Ordering.{is_lt};
ghost use Rattle.std.proofs.lemmas.Map.Keys.{IsStrictlySortedBy-prop};
ghost use Rattle.sml_tree.specs.Views.{ident_of};
ghost use Rattle.sml_objects.specs.Labels.{AreRising, StandsAt, label_order, label_rank, numbers, with_labels};
ghost use Rattle.sml_objects.specs.Maps.{lookup};

use itoa::Buffer;
use sml_lex::fault::Memory;
use sml_tree::bare::Ident;
use std::alloc::Global;
use std::cmp::Ordering;
use std::rc::Rc;

/// The labels of a row, in their order: numbers by their value, then the others in byte order. Each stands once.
#[derive(Drop)]
pub struct Labels {
    list: Vec<Ident>,
    ghost rising: { AreRising (map ident_of list.items) } by { IsStrictlySortedBy-prop label_order (map ident_of list.items) },
}

impl Labels {
    ghost use Rattle.sml_objects.specs.Views.{label_list};

    /// The labels from 1 to the count.
    pub fn numbered(alloc: Global, count: usize) -> Result<Labels, Memory>
        ensures { IfOk result (λ ls. label_list ls ≡ numbers 1 count) }
    {
        let mut list = Vec::new(alloc);
        for index in 0..count {
            list.push(decimal_label(alloc, index + 1)?)?;
        }
        Ok(Labels { list })
    }

    /// The labels of this list where they rise. Else the list is handed back.
    pub fn from_list(list: Vec<Ident>) -> Result<Labels, Vec<Ident>>
        ensures accepts { IsOk result ↔ AreRising (map ident_of list.items) }
        ensures ok { IfOk result (λ ls. label_list ls ≡ map ident_of list.items) }
        ensures err { IfErr result (λ others. others ≡ list) }
    {
        if are_rising(&list) {
            Ok(Labels { list })
        } else {
            Err(list)
        }
    }

    /// The labels in their order.
    pub fn as_slice(&self) -> &[Ident]
        ensures { map ident_of result.now ≡ label_list self.now }
    {
        &self.list
    }

    /// Whether these are the same labels.
    pub fn are_same(&self, other: &Labels) -> bool
        ensures yes { result ≡ true → label_list self.now ≡ label_list other.now }
        ensures no { result ≡ false → ¬ (label_list self.now ≡ label_list other.now) }
    {
        same_idents(&self.list, &other.list)
    }

    /// Where a label stands.
    pub fn position(&self, label: &[u8]) -> Option<usize>
        ensures some { IfSome result (StandsAt (label_list self.now) label.now) }
        ensures none { result ≡ None → (i : ℕ) → ¬ (StandsAt (label_list self.now) label.now i) }
    {
        place(&self.list, label)
    }

    /// Which of the fields of a row of these labels has the label.
    pub fn field<'a, T>(&self, fields: &'a [T], label: &[u8]) -> Option<&'a T>
        ensures { option_copied result ≡ lookup label.now (with_labels (label_list self.now) fields.now) }
    {
        let index = self.position(label)?;
        fields.get(index)
    }

    /// Whether these are the labels from 1 to their number.
    pub fn are_numbered(&self) -> bool
        ensures yes { result ≡ true → label_list self.now ≡ numbers 1 (length (label_list self.now)) }
        ensures no { result ≡ false → ¬ (label_list self.now ≡ numbers 1 (length (label_list self.now))) }
    {
        are_numbers(&self.list)
    }
}

fn decimal_label(alloc: Global, number: usize) -> Result<Ident, Memory>
    ensures { IfOk result (λ l. ident_of l ≡ decimal number) }
{
    let mut buffer = Buffer::new();
    let text = Vec::from_slice(alloc, buffer.format(number).as_bytes())?;
    Ok(Rc::new(alloc, text)?)
}

fn same_idents(ones: &[Ident], others: &[Ident]) -> bool
    ensures yes { result ≡ true → map ident_of ones.now ≡ map ident_of others.now }
    ensures no { result ≡ false → ¬ (map ident_of ones.now ≡ map ident_of others.now) }
{
    if ones.len() != others.len() {
        return false;
    }
    for index in 0..ones.len() {
        if !is_same(&ones[index], &others[index]) {
            return false;
        }
    }
    true
}

fn is_same(one: &Ident, other: &Ident) -> bool
    ensures yes { result ≡ true → ident_of one.now ≡ ident_of other.now }
    ensures no { result ≡ false → ¬ (ident_of one.now ≡ ident_of other.now) }
{
    one.as_slice() == other.as_slice()
}

fn are_rising(list: &[Ident]) -> bool
    ensures yes { result ≡ true → AreRising (map ident_of list.now) }
    ensures no { result ≡ false → ¬ (AreRising (map ident_of list.now)) }
{
    for index in 1..list.len() {
        let before = &list[index - 1];
        if !is_below(before, &list[index]) {
            return false;
        }
    }
    true
}

fn are_numbers(list: &[Ident]) -> bool
    ensures yes { result ≡ true → map ident_of list.now ≡ numbers 1 (length list.now) }
    ensures no { result ≡ false → ¬ (map ident_of list.now ≡ numbers 1 (length list.now)) }
{
    for index in 0..list.len() {
        if !is_decimal(&list[index], index + 1) {
            return false;
        }
    }
    true
}

fn is_decimal(label: &Ident, number: usize) -> bool
    ensures yes { result ≡ true → ident_of label.now ≡ decimal number }
    ensures no { result ≡ false → ¬ (ident_of label.now ≡ decimal number) }
{
    let mut buffer = Buffer::new();
    label.as_slice() == buffer.format(number).as_bytes()
}

fn place(list: &[Ident], label: &[u8]) -> Option<usize>
    requires { AreRising (map ident_of list.now) }
    ensures some { IfSome result (StandsAt (map ident_of list.now) label.now) }
    ensures none { result ≡ None → (i : ℕ) → ¬ (StandsAt (map ident_of list.now) label.now i) }
{
    let mut low = 0;
    let mut high = list.len();
    while low < high {
        let middle = low + (high - low) / 2;
        match compare(&list[middle], label) {
            Ordering::Less => low = middle + 1,
            Ordering::Equal => return Some(middle),
            Ordering::Greater => high = middle,
        }
    }
    None
}

fn is_below(one: &Ident, other: &Ident) -> bool
    ensures { result ≡ is_lt (label_order (ident_of one.now) (ident_of other.now)) }
{
    compare(one, other).is_lt()
}

fn compare(one: &Ident, label: &[u8]) -> Ordering
    ensures { result ≡ label_order (ident_of one.now) label.now }
{
    rank(one).cmp(&rank(label)).then(one.as_slice().cmp(label))
}

fn rank(label: &[u8]) -> usize
    ensures { result ≡ label_rank label.now }
{
    match label {
        [b'1'..=b'9', ..] => label.len(),
        _ => usize::MAX,
    }
}
