//! Delays of gates, and assignments with them.

use crate::expressions::{Expression, negation};
use std::alloc::Global;
use vsim_netlist_design::{Draft, Level, push_time};

/// The time that a gate takes to rise and to fall, in femtoseconds.
#[derive(Clone, Copy)]
pub struct Delay {
    pub rise: u64,
    pub fall: u64,
}

/// The name of a gate and its delay.
#[derive(Drop)]
pub struct NamedDelay {
    pub name: String,
    pub delay: Delay,
}

/// No delay: a delta cycle.
const NONE: Delay = Delay { rise: 0, fall: 0 };

/// The delay of the gates with a name, by default that of `others`. Gates without a name have none.
pub fn delay_of(delays: &[NamedDelay], name: &str) -> Delay {
    let mut others = NONE;
    if name.is_empty() {
        return others;
    }
    for each in delays {
        if each.name.as_str() == name {
            return each.delay;
        }
        if each.name.as_str() == "others" {
            others = each.delay;
        }
    }
    others
}

/// Adds the delay after a value; nothing if it is 0.
fn push_after(text: &mut Draft, time: u64) {
    if time != 0 {
        text.push(" after ");
        push_time(text, time);
    }
}

impl Delay {
    /// The longer of the two.
    pub fn longest(self) -> u64 {
        self.rise.max(self.fall)
    }

    /// Whether an expression has different times to rise and to fall. One of literals alone, which
    /// never changes, has not.
    fn differs(self, value: &Expression) -> bool {
        self.rise != self.fall && value.has_name
    }

    /// The time to reach a level.
    pub fn to(self, level: Level) -> u64 {
        match level {
            Level::Zero => self.fall,
            Level::One => self.rise,
            _ => self.longest(),
        }
    }
}

/// Adds a value with its delay, and the condition under which it is taken.
fn push_choice(text: &mut Draft, value: &str, time: u64, condition: &Draft) {
    text.push(value);
    push_after(text, time);
    text.push(" when ");
    text.push_draft(condition);
}

/// Adds the concurrent assignment of an expression with different times to rise and to fall.
fn push_choices(alloc: Global, text: &mut Draft, target: &str, value: &Expression, delay: Delay) {
    let refused = negation(alloc, value);
    text.push_all(&[target, "<="]);
    push_choice(text, "'1'", delay.rise, &value.text);
    text.push(" else");
    push_choice(text, "'0'", delay.fall, &refused.text);
    text.push(" else'X'");
    push_after(text, delay.longest());
    text.push(";\n");
}

/// Adds the assignment of an expression to a net, up to its end.
fn push_value(text: &mut Draft, target: &str, value: &Expression, time: u64) {
    text.push_all(&[target, "<="]);
    text.push_draft(&value.text);
    push_after(text, time);
}

/// Adds the concurrent assignment of an expression to a net.
pub fn push_assignment(
    alloc: Global,
    text: &mut Draft,
    target: &str,
    value: &Expression,
    delay: Delay,
) {
    if delay.differs(value) {
        return push_choices(alloc, text, target, value, delay);
    }
    push_value(text, target, value, delay.longest());
    text.push(";\n");
}

/// Adds the assignment of a literal to a net in a process.
pub fn push_literal(text: &mut Draft, target: &str, literal: &str, time: u64) {
    text.push_all(&[target, "<=", literal]);
    push_after(text, time);
    text.push(";");
}

/// Adds the beginning of a branch.
fn push_branch(text: &mut Draft, word: &str, condition: &Draft) {
    text.push(word);
    text.push_draft(condition);
    text.push(" then ");
}

/// Adds the assignment of an expression to a net in a process.
pub fn push_stored(
    alloc: Global,
    text: &mut Draft,
    target: &str,
    value: &Expression,
    delay: Delay,
) {
    if !delay.differs(value) {
        push_value(text, target, value, delay.longest());
        return text.push(";");
    }
    let refused = negation(alloc, value);
    push_branch(text, "if ", &value.text);
    push_literal(text, target, "'1'", delay.rise);
    push_branch(text, "elsif ", &refused.text);
    push_literal(text, target, "'0'", delay.fall);
    text.push("else ");
    push_literal(text, target, "'X'", delay.longest());
    text.push("end if;");
}

/// Adds a buffer that drives only while a net enables it, at `1` if the flag is set.
pub fn push_tristate(
    text: &mut Draft,
    target: &str,
    value: &Expression,
    enable: (&str, bool),
    delay: Delay,
) {
    let time = delay.longest();
    let (enable, is_high) = enable;
    let (on, off) = if is_high {
        ("'1'", "'0'")
    } else {
        ("'0'", "'1'")
    };
    push_value(text, target, value, time);
    text.push_all(&[" when ", enable, "=", on, "else'Z'"]);
    push_after(text, time);
    text.push_all(&[" when ", enable, "=", off, "else'X'"]);
    push_after(text, time);
    text.push(";\n");
}
