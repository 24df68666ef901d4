// A rule in words: a row for each node, numbered, indented, and with the letters bound there.
use book::rules::{Pattern, Rule};
use book::terms::{
    Binder, BracketKind, Condition, DutyKind, Letter, Operand, Part, Sign, Sum, TriggerKind,
};
use std::alloc::{AllocError, Global};
use std::fmt;
use std::fmt::Write;

// A part of a book as a book text writes it.
#[derive(Clone, Copy)]
struct Written<T>(T);

impl fmt::Display for Written<Letter> {
    fn fmt<W: fmt::Write>(&self, f: &mut fmt::Formatter<W>) -> fmt::Result {
        f.write_str(match self.0 {
            Letter::A => "A",
            Letter::B => "B",
            Letter::C => "C",
            Letter::D => "D",
            Letter::E => "E",
            Letter::F => "F",
            Letter::G => "G",
            Letter::H => "H",
        })
    }
}

impl fmt::Display for Written<Part> {
    fn fmt<W: fmt::Write>(&self, f: &mut fmt::Formatter<W>) -> fmt::Result {
        match self.0 {
            Part::Number(n) => write!(f, "{n}"),
            Part::Bound(letter) => write!(f, "{}", Written(letter)),
            Part::Product(n, letter) => write!(f, "{n} * {}", Written(letter)),
        }
    }
}

impl fmt::Display for Written<Sum> {
    fn fmt<W: fmt::Write>(&self, f: &mut fmt::Formatter<W>) -> fmt::Result {
        match self.0 {
            Sum::One(a) => write!(f, "{}", Written(a)),
            Sum::Two(a, b) => write!(f, "{} + {}", Written(a), Written(b)),
            Sum::Three(a, b, c) => write!(f, "{} + {} + {}", Written(a), Written(b), Written(c)),
        }
    }
}

impl fmt::Display for Written<Sign> {
    fn fmt<W: fmt::Write>(&self, f: &mut fmt::Formatter<W>) -> fmt::Result {
        f.write_str(match self.0 {
            Sign::AtMost => "<=",
            Sign::AtLeast => ">=",
            Sign::Equal => "=",
        })
    }
}

impl fmt::Display for Written<Condition> {
    fn fmt<W: fmt::Write>(&self, f: &mut fmt::Formatter<W>) -> fmt::Result {
        let Condition { left, sign, right } = self.0;
        write!(f, "{} {} {}", Written(left), Written(sign), Written(right))
    }
}

impl fmt::Display for Written<Binder> {
    fn fmt<W: fmt::Write>(&self, f: &mut fmt::Formatter<W>) -> fmt::Result {
        let field = self.0.field.name();
        match self.0.operand {
            Operand::Number(n) => write!(f, "{field} {n}"),
            Operand::Bound(letter) => write!(f, "{field} {}", Written(letter)),
        }
    }
}

// Parts in a row, the first behind an opening and the others behind commas.
#[derive(Drop)]
struct Row<'a, T>(&'static str, &'a [T]);

impl<T: Copy> fmt::Display for Row<'_, T>
where
    Written<T>: fmt::Display,
{
    fn fmt<W: fmt::Write>(&self, f: &mut fmt::Formatter<W>) -> fmt::Result {
        let mut parting = self.0;
        for part in self.1 {
            write!(f, "{parting}{}", Written(*part))?;
            parting = ", ";
        }
        Ok(())
    }
}

impl fmt::Display for Written<&Pattern> {
    fn fmt<W: fmt::Write>(&self, f: &mut fmt::Formatter<W>) -> fmt::Result {
        match self.0 {
            Pattern::Never => f.write_str("never"),
            Pattern::Lines {
                binders,
                conditions,
            } => write!(f, "[{}{}]", Row("", binders), Row(" if ", conditions)),
        }
    }
}

// A rule's own node, without those inside it.
impl fmt::Display for Written<&Rule> {
    fn fmt<W: fmt::Write>(&self, f: &mut fmt::Formatter<W>) -> fmt::Result {
        match self.0 {
            Rule::Duty(kind, act, deadline) => {
                f.write_str(match kind {
                    DutyKind::Must => "must",
                    DutyKind::MustNot => "mustnot",
                })?;
                write!(f, " {} before {}", Written(act), Written(deadline))
            }
            Rule::Trigger(kind, start, end, _) => {
                f.write_str(match kind {
                    TriggerKind::Each => "each",
                    TriggerKind::Once => "once",
                })?;
                write!(f, " {} until {} then", Written(start), Written(end))
            }
            Rule::Bracket(BracketKind::Else, _, _) => f.write_str("else, of these two"),
            Rule::Bracket(BracketKind::And, _, _) => f.write_str("and, of these two"),
        }
    }
}

// Which of the letters A to H are bound. (The reader's own sets are not public: they would be calls of the book's for this
// listing alone.)
#[derive(Clone, Copy)]
struct Bound([bool; 8]);

impl Bound {
    // These and the letters that a pattern binds.
    fn with(self, pattern: &Pattern) -> Bound {
        let mut more = self.0;
        if let Pattern::Lines { binders, .. } = pattern {
            for binder in binders {
                if let Operand::Bound(letter) = binder.operand {
                    more[letter.index()] = true;
                }
            }
        }
        Bound(more)
    }
}

const LETTERS: [Letter; 8] = [
    Letter::A,
    Letter::B,
    Letter::C,
    Letter::D,
    Letter::E,
    Letter::F,
    Letter::G,
    Letter::H,
];

impl fmt::Display for Bound {
    fn fmt<W: fmt::Write>(&self, f: &mut fmt::Formatter<W>) -> fmt::Result {
        let mut parting = "   bound: ";
        for letter in LETTERS {
            if self.0[letter.index()] {
                write!(f, "{parting}{}", Written(letter))?;
                parting = " ";
            }
        }
        Ok(())
    }
}

// Where a node stands: its number in the rule, how many nodes are around it, and the letters bound there.
#[derive(Clone, Copy)]
struct Spot {
    node: u32,
    around: usize,
    bound: Bound,
}

impl Spot {
    // The first node inside, where these letters are bound.
    fn inside(self, bound: Bound) -> Spot {
        Spot {
            node: self.node.saturating_add(1),
            around: self.around.saturating_add(1),
            bound,
        }
    }
}

// The rows of a rule whose own node stands there; answers the next number.
fn push_rows(rows: &mut String, rule: &Rule, spot: Spot) -> Result<u32, AllocError> {
    let Spot {
        node,
        around,
        bound,
    } = spot;
    let indent = around.saturating_mul(2);
    writeln!(rows, "{node:>4} {:indent$}{}{bound}", "", Written(rule))?;
    let inner = spot.inside(bound);
    match rule {
        Rule::Duty(_, _, _) => Ok(inner.node),
        // the letters that the first pattern binds are bound in the duty
        Rule::Trigger(_, start, _, duty) => {
            push_rows(rows, duty, spot.inside(bound.with(start)))
        }
        Rule::Bracket(_, first, second) => {
            let after = push_rows(rows, first, inner)?;
            push_rows(
                rows,
                second,
                Spot {
                    node: after,
                    ..inner
                },
            )
        }
    }
}

pub fn rule_rows(heap: Global, rule: &Rule) -> Result<String, AllocError> {
    let mut rows = String::new(heap);
    let spot = Spot {
        node: 1,
        around: 0,
        bound: Bound([false; 8]),
    };
    push_rows(&mut rows, rule, spot)?;
    Ok(rows)
}
