// Words and counts are matched here, and nothing is read: sorts and values are read by who is handed their nodes.
ghost use Rattle.shapes.specs.Shape.{one, two, ext_shape, pair_shape};
ghost use Rattle.shapes.specs.Shows.{ShapeAt, AppliedAt, OneAt, TwoAt, IndexAt, HeadedAt, ByHeadAt};

use crate::look::{Index, list_at, numeral_at, symbol_at, wide_at};
use arena::{Node, after, node_at, text_is};

// The sorts that hold a signed 64-bit number.
#[derive(Clone, Copy)]
pub enum Kind {
    Decimal,
    Datetime,
    Duration,
}

// The operators of one operand and of two that a solver may leave.
#[derive(Clone, Copy)]
pub enum UnaryOp {
    Not,
    Bvnego,
}

#[derive(Clone, Copy)]
pub enum BinaryOp {
    Or,
    Equal,
    Bvsaddo,
    Bvsmulo,
}

// An arm, with the nodes, the text and the numbers that it hands on.
#[derive(Clone, Copy)]
pub enum Found {
    Uncovered,
    AsNone {
        sort: usize,
    },
    AsSome {
        sort: usize,
        value: usize,
    },
    SomeOf {
        value: usize,
    },
    AsEmpty {
        sort: usize,
    },
    Singleton {
        value: usize,
    },
    Union {
        left: usize,
        right: usize,
    },
    Extension {
        kind: Kind,
        low: u64,
    },
    Indexed {
        offset: u64,
        size: u64,
        low: u64,
        high: u64,
    },
    Made {
        offset: u64,
        size: u64,
        first: usize,
        count: u64,
    },
    Other,
    Unary {
        op: UnaryOp,
        value: usize,
    },
    Binary {
        op: BinaryOp,
        left: usize,
        right: usize,
    },
    Ite {
        condition: usize,
        left: usize,
        right: usize,
    },
}

// (Decimal b), (Datetime b), (Duration b) with b of 64 bits, or a name's application.
fn extension(nodes: &[u64], text: &[u8], offset: u64, size: u64, first: usize) -> Found
    ensures { OneAt ext_shape nodes.now text.now offset size first result }
{
    let made = Found::Made {
        offset,
        size,
        first,
        count: 1,
    };
    let Some(low) = wide_at(nodes, first) else {
        return made;
    };
    if text_is(text, offset, size, b"Decimal") {
        return Found::Extension {
            kind: Kind::Decimal,
            low,
        };
    }
    if text_is(text, offset, size, b"Datetime") {
        return Found::Extension {
            kind: Kind::Datetime,
            low,
        };
    }
    if text_is(text, offset, size, b"Duration") {
        return Found::Extension {
            kind: Kind::Duration,
            low,
        };
    }
    made
}

// (f a)
fn one(nodes: &[u64], text: &[u8], offset: u64, size: u64, first: usize) -> Found
    ensures { OneAt one nodes.now text.now offset size first result }
{
    if text_is(text, offset, size, b"not") {
        return Found::Unary {
            op: UnaryOp::Not,
            value: first,
        };
    }
    if text_is(text, offset, size, b"bvnego") {
        return Found::Unary {
            op: UnaryOp::Bvnego,
            value: first,
        };
    }
    if text_is(text, offset, size, b"some") {
        return Found::SomeOf { value: first };
    }
    if text_is(text, offset, size, b"set.singleton") {
        return Found::Singleton { value: first };
    }
    extension(nodes, text, offset, size, first)
}

// (_ bvN W), or a name's application; off and long tell the text of the first argument.
fn index(
    nodes: &[u64],
    text: &[u8],
    offset: u64,
    size: u64,
    off: u64,
    long: u64,
    first: usize,
) -> Found
    ensures { IndexAt nodes.now text.now offset size off long first result }
{
    let made = Found::Made {
        offset,
        size,
        first,
        count: 2,
    };
    let second = after(nodes, first);
    let Some(Index { low, high }) = numeral_at(nodes, second) else {
        return made;
    };
    if 2 <= long && text_is(text, off, 2, b"bv") {
        return Found::Indexed {
            offset: off + 2,
            size: long - 2,
            low,
            high,
        };
    }
    made
}

// (as none T), (as set.empty T), (_ bvN W), or a name's application.
fn worded(nodes: &[u64], text: &[u8], offset: u64, size: u64, first: usize) -> Found
    ensures { TwoAt pair_shape nodes.now text.now offset size first result }
{
    let made = Found::Made {
        offset,
        size,
        first,
        count: 2,
    };
    let Some(word) = symbol_at(nodes, first) else {
        return made;
    };
    if text_is(text, offset, size, b"_") {
        return index(nodes, text, offset, size, word.offset, word.size, first);
    }
    if text_is(text, offset, size, b"as") {
        let sort = after(nodes, first);
        if text_is(text, word.offset, word.size, b"none") {
            return Found::AsNone { sort };
        }
        if text_is(text, word.offset, word.size, b"set.empty") {
            return Found::AsEmpty { sort };
        }
    }
    made
}

// (f a b)
fn two(nodes: &[u64], text: &[u8], offset: u64, size: u64, first: usize) -> Found
    ensures { TwoAt two nodes.now text.now offset size first result }
{
    let second = after(nodes, first);
    if text_is(text, offset, size, b"or") {
        return Found::Binary {
            op: BinaryOp::Or,
            left: first,
            right: second,
        };
    }
    if text_is(text, offset, size, b"=") {
        return Found::Binary {
            op: BinaryOp::Equal,
            left: first,
            right: second,
        };
    }
    if text_is(text, offset, size, b"bvsaddo") {
        return Found::Binary {
            op: BinaryOp::Bvsaddo,
            left: first,
            right: second,
        };
    }
    if text_is(text, offset, size, b"bvsmulo") {
        return Found::Binary {
            op: BinaryOp::Bvsmulo,
            left: first,
            right: second,
        };
    }
    if text_is(text, offset, size, b"set.union") {
        return Found::Union {
            left: first,
            right: second,
        };
    }
    if text_is(text, offset, size, b"V4") || text_is(text, offset, size, b"V6") {
        return Found::Uncovered;
    }
    worded(nodes, text, offset, size, first)
}

// A name's application to so many arguments from a node on.
fn applied(nodes: &[u64], text: &[u8], offset: u64, size: u64, first: usize, count: u64) -> Found
    ensures { AppliedAt nodes.now text.now offset size first count result }
{
    match count {
        1 => one(nodes, text, offset, size, first),
        2 => two(nodes, text, offset, size, first),
        3 if text_is(text, offset, size, b"ite") => {
            let left = after(nodes, first);
            let right = after(nodes, left);
            Found::Ite {
                condition: first,
                left,
                right,
            }
        }
        _ => Found::Made {
            offset,
            size,
            first,
            count,
        },
    }
}

// ((as some T) v): the head has so many parts from a node on, and so many arguments stand behind it.
fn headed(nodes: &[u64], text: &[u8], inner: usize, parts: u64, value: usize, count: u64) -> Found
    ensures { HeadedAt nodes.now text.now inner parts value count result }
{
    if parts != 3 || count != 1 {
        return Found::Other;
    }
    let Some(word) = symbol_at(nodes, inner) else {
        return Found::Other;
    };
    let second = after(nodes, inner);
    let Some(next) = symbol_at(nodes, second) else {
        return Found::Other;
    };
    if text_is(text, word.offset, word.size, b"as")
        && text_is(text, next.offset, next.size, b"some")
    {
        let sort = after(nodes, second);
        return Found::AsSome { sort, value };
    }
    Found::Other
}

// The head stands at the node, and so many arguments behind it.
fn by_head(nodes: &[u64], text: &[u8], at: usize, count: u64) -> Found
    ensures { ByHeadAt nodes.now text.now at count result }
{
    match node_at(nodes, at) {
        Node::Symbol { size, offset } => applied(nodes, text, offset, size, at + 1, count),
        Node::App { children, end } => headed(nodes, text, at + 1, children, end as usize, count),
        _ => Found::Other,
    }
}

// The arm of the application at a node.
pub fn shape_at(nodes: &[u64], text: &[u8], at: usize) -> Found
    ensures { ShapeAt nodes.now text.now at result }
{
    let Some(count) = list_at(nodes, at) else {
        return Found::Other;
    };
    if count == 0 {
        return Found::Other;
    }
    by_head(nodes, text, at + 1, count - 1)
}
