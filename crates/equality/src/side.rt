// Two values side by side, by their forms: whether they are one, or what is left to compare.
ghost use Rattle.forms.specs.declared.form.Form.{Form};
ghost use Rattle.equality.specs.Compared.{Compares, Anywhere, TextCompares};

use crate::leaf::{same_at, same_bits, same_entity, same_number};
use forms::Form;
use shapes::Kind;
use words::Pair;

#[derive(Clone, Copy)]
pub enum Compared {
    Told(bool),
    Insides {
        left: usize,
        right: usize,
    },
    Sets,
    Fields {
        left: usize,
        right: usize,
        count: u64,
    },
}

fn compare_truth(truth: bool, right: Form) -> Compared
    ensures { Anywhere (Form.Truth truth) right result }
{
    let Form::Truth(other) = right else {
        return Compared::Told(false);
    };
    if truth {
        return Compared::Told(other);
    }
    Compared::Told(!other)
}

fn compare_text(text: &[u8], offset: u64, size: u64, right: Form) -> Compared
    ensures { TextCompares text.now offset size right result }
{
    let Form::Text {
        offset: other,
        size: long,
    } = right
    else {
        return Compared::Told(false);
    };
    Compared::Told(same_at(text, offset, size, text, other, long))
}

fn compare_number(kind: Kind, low: u64, right: Form) -> Compared
    ensures { Anywhere (Form.Number kind low) right result }
{
    let Form::Number {
        kind: other,
        low: word,
    } = right
    else {
        return Compared::Told(false);
    };
    Compared::Told(same_number(kind, low, other, word))
}

fn compare_bits(width: u64, low: u64, high: u64, right: Form) -> Compared
    ensures { Anywhere (Form.Bits width low high) right result }
{
    let Form::Bits {
        width: other,
        low: least,
        high: most,
    } = right
    else {
        return Compared::Told(false);
    };
    let one = Pair { low, high };
    let two = Pair {
        low: least,
        high: most,
    };
    Compared::Told(same_bits(width, one, other, two))
}

fn compare_nothing(right: Form) -> Compared
    ensures { Anywhere Form.Nothing right result }
{
    let Form::Nothing = right else {
        return Compared::Told(false);
    };
    Compared::Told(true)
}

fn compare_inside(value: usize, right: Form) -> Compared
    ensures { Anywhere (Form.Inside value) right result }
{
    let Form::Inside(other) = right else {
        return Compared::Told(false);
    };
    Compared::Insides {
        left: value,
        right: other,
    }
}

fn compare_set(right: Form) -> Compared
    ensures { Anywhere Form.Set right result }
{
    let Form::Set = right else {
        return Compared::Told(false);
    };
    Compared::Sets
}

fn compare_record(row: usize, first: usize, count: u64, right: Form) -> Compared
    ensures { Anywhere (Form.Record row first count) right result }
{
    let Form::Record {
        row: other,
        first: second,
        count: many,
    } = right
    else {
        return Compared::Told(false);
    };
    if row != other {
        return Compared::Told(false);
    }
    if count != many {
        return Compared::Told(false);
    }
    Compared::Fields {
        left: first,
        right: second,
        count,
    }
}

pub fn compare(names: &[u8], text: &[u8], left: Form, right: Form) -> Compared
    ensures { Compares names.now text.now left right result }
{
    match left {
        Form::Truth(truth) => compare_truth(truth, right),
        Form::Text { offset, size } => compare_text(text, offset, size, right),
        Form::Number { kind, low } => compare_number(kind, low, right),
        Form::Bits { width, low, high } => compare_bits(width, low, high, right),
        Form::Nothing => compare_nothing(right),
        Form::Inside(value) => compare_inside(value, right),
        Form::Set => compare_set(right),
        Form::Entity { row, offset, size } => {
            Compared::Told(same_entity(names, text, row, text, offset, size, right))
        }
        Form::Member { row, offset, size } => {
            Compared::Told(same_entity(names, text, row, names, offset, size, right))
        }
        Form::Record { row, first, count } => compare_record(row, first, count, right),
        Form::NoForm => Compared::Told(false),
    }
}
