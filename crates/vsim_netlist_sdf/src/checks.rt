//! The checks of timing (IEEE 1497, timing checks; their meaning is in IEEE 1364, clause 15).

use crate::reader::{Reader, Target, deeper};
use vsim_netlist_design::{
    CheckEvent, CheckOwner, CheckRule, Family, Fault, Guard, TimingCheck, Width, Window, push,
};
use vsim_netlist_sdf_text::{Token, Tokens};

/// Which limits follow the two events of a check.
#[derive(Clone, Copy, PartialEq, Eq)]
enum Limits {
    Before,
    After,
    BeforeAndAfter,
    AfterAndBefore,
}

/// Whether a condition compares so that an unknown value is not equal to any (`===`).
fn is_exact(text: &str) -> bool {
    text.contains("===") || text.contains("!==")
}

/// Whether an event counts while its condition is unknown (IEEE 1364, 15.6): a comparison by `==` or `!=` enables the check, and anything else does not.
fn admits_unknown(text: &str) -> bool {
    !is_exact(text) && (text.contains("==") || text.contains("!="))
}

impl<'a> Reader<'a> {
    /// Adds a check of the present cell, on a line.
    fn put_check(&mut self, line: usize, rule: CheckRule) -> Result<(), Fault> {
        let owner = match self.target {
            Target::Instance(place) => CheckOwner::Instance(place),
            Target::Kind(place) => CheckOwner::Kind(place),
            Target::Nothing => {
                return Err(self.fault(&["a check stands before the INSTANCE of its cell"]));
            }
        };
        let check = TimingCheck { owner, line, rule };
        Ok(push(&mut self.checks.checks, check)?)
    }

    /// Goes to the last word or group of the present group, and returns where what is before it
    /// ends.
    fn go_to_last(&mut self) -> usize {
        let (mut depth, mut end) = (0usize, self.tokens.start);
        let mut last: (Tokens<'a>, usize) = (self.tokens, end);
        for _ in 0..u64::MAX {
            match self.tokens.token {
                Token::EndOfFile | Token::Broken(_) => break,
                Token::Close if depth == 0 => break,
                _ if depth == 0 => last = (self.tokens, end),
                _ => {}
            }
            depth = deeper(depth, self.tokens.token);
            end = self.tokens.end;
            self.tokens.advance();
        }
        self.tokens = last.0;
        last.1
    }

    /// Goes to the end of the present group, and returns where what is in it ends.
    fn go_to_end(&mut self) -> usize {
        let (mut depth, mut end) = (0usize, self.tokens.start);
        for _ in 0..u64::MAX {
            match self.tokens.token {
                Token::EndOfFile | Token::Broken(_) => break,
                Token::Close if depth == 0 => break,
                _ => {}
            }
            depth = deeper(depth, self.tokens.token);
            end = self.tokens.end;
            self.tokens.advance();
        }
        end
    }

    /// Goes past the name of a condition, if it has one.
    fn pass_name(&mut self) {
        if let Token::Quoted(_) = self.tokens.token {
            self.tokens.advance();
        }
    }

    /// The index of the condition of an event. A comparison by `===` is one by `==` here.
    fn condition_of_event(&mut self, text: &str, line: usize) -> Result<usize, Fault> {
        if !is_exact(text) {
            return self.condition(text, line);
        }
        let plain = text.replace(self.alloc, "!==", "!=")?;
        let plain = plain.as_str().replace(self.alloc, "===", "==")?;
        self.condition(plain.as_str(), line)
    }

    /// The condition in a text.
    fn guard(&mut self, text: &str, line: usize) -> Result<Guard, Fault> {
        let condition = self.condition_of_event(text, line)?;
        Ok(Guard {
            condition,
            admits_unknown: admits_unknown(text),
        })
    }

    /// Takes an event with a condition, after `COND`.
    fn conditional_event(&mut self) -> Result<CheckEvent, Fault> {
        self.tokens.advance();
        self.pass_name();
        let (start, line) = (self.tokens.start, self.tokens.token_line);
        let end = self.go_to_last();
        let text = self.tokens.between(start, end);
        let guard = self.guard(text, line)?;
        self.guarded_event(guard)
    }

    /// Takes the signal of an event with a condition, and the end of the group.
    fn guarded_event(&mut self, guard: Guard) -> Result<CheckEvent, Fault> {
        let (edge, signal) = self.input()?;
        self.close()?;
        Ok(CheckEvent {
            signal,
            edge,
            guard: Some(guard),
        })
    }

    /// Takes an event after its opening parenthesis.
    fn event_in_group(&mut self) -> Result<CheckEvent, Fault> {
        if self.is_at("COND") {
            return self.conditional_event();
        }
        let (edge, signal) = self.edge_and_pin()?;
        Ok(CheckEvent {
            signal,
            edge,
            guard: None,
        })
    }

    /// Takes an event.
    fn event(&mut self) -> Result<CheckEvent, Fault> {
        if self.tokens.token == Token::Open {
            self.tokens.advance();
            return self.event_in_group();
        }
        let (edge, signal) = self.input()?;
        Ok(CheckEvent {
            signal,
            edge,
            guard: None,
        })
    }

    /// Takes a limit with its sign. An empty one is 0, by which nothing is demanded.
    fn signed_limit(&mut self) -> Result<i64, Fault> {
        if self.tokens.token != Token::Open {
            return Err(self.unexpected("a limit"));
        }
        self.tokens.advance();
        // as what is added to other delays, it may be negative
        self.is_increment = true;
        Ok(self.plain_value()?.unwrap_or(0))
    }

    /// Takes a limit that is 0 if it is negative.
    fn limit(&mut self) -> Result<i64, Fault> {
        let limit = self.signed_limit()?;
        if limit < 0 {
            self.checks.negative = self.checks.negative.saturating_add(1);
        }
        Ok(limit.max(0))
    }

    /// Takes two limits, of which one may be negative if their sum is more than 0 (IEEE 1364,
    /// 15.2.3).
    fn two_limits(&mut self) -> Result<(i64, i64), Fault> {
        let keyword = self.keyword;
        let first = self.signed_limit()?;
        let second = self.signed_limit()?;
        let is_negative = first < 0 || second < 0;
        if is_negative && first.saturating_add(second) <= 0 {
            return Err(self.fault(&[
                keyword,
                " has a negative limit, and their sum is not above 0",
            ]));
        }
        Ok((first, second))
    }

    /// Takes limits: how long before the reference a window begins, and how long after it ends.
    fn limits(&mut self, limits: Limits) -> Result<(i64, i64), Fault> {
        if limits == Limits::Before || limits == Limits::After {
            let limit = self.limit()?;
            return Ok(if limits == Limits::Before {
                (limit, 0)
            } else {
                (0, limit)
            });
        }
        let (first, second) = self.two_limits()?;
        Ok(if limits == Limits::BeforeAndAfter {
            (first, second)
        } else {
            (second, first)
        })
    }

    /// Takes the two events of a check; the clock of a setup is its reference.
    fn window(&mut self, family: Family) -> Result<Window, Fault> {
        let first = self.event()?;
        let second = self.event()?;
        let (reference, data) = match family {
            Family::Setup => (second, first),
            Family::Recovery => (first, second),
        };
        Ok(Window {
            family,
            reference,
            data,
            before: 0,
            after: 0,
            stamp: None,
            check: None,
        })
    }

    /// Takes a condition of the first or of the second event.
    fn take_guard(&mut self, window: &mut Window) -> Result<(), Fault> {
        let (keyword, line) = (self.keyword, self.tokens.token_line);
        self.pass_name();
        let start = self.tokens.start;
        let end = self.go_to_end();
        self.close()?;
        let text = self.tokens.between(start, end);
        let guard = self.guard(text, line)?;
        match keyword {
            "SCOND" => window.stamp = Some(guard),
            "CCOND" => window.check = Some(guard),
            _ => return Err(self.unsupported()),
        }
        Ok(())
    }

    /// Takes conditions up to the end of a check.
    fn take_guards(&mut self, window: &mut Window) -> Result<(), Fault> {
        for _ in 0..u64::MAX {
            if !self.enter()? {
                break;
            }
            self.take_guard(window)?;
        }
        Ok(())
    }

    /// Takes a check of two events.
    fn take_window(&mut self, family: Family, limits: Limits) -> Result<(), Fault> {
        let line = self.line;
        let mut window = self.window(family)?;
        let (before, after) = self.limits(limits)?;
        window.before = before;
        window.after = after;
        self.end_window(line, window)
    }

    /// Takes the conditions of a check of two events, and adds it.
    fn end_window(&mut self, line: usize, window: Window) -> Result<(), Fault> {
        let mut window = window;
        self.take_guards(&mut window)?;
        self.put_check(line, CheckRule::Window(window))
    }

    /// Takes a check of the width of pulses.
    fn take_width(&mut self) -> Result<(), Fault> {
        let line = self.line;
        let event = self.event()?;
        let limit = self.limit()?;
        self.close()?;
        self.put_check(line, CheckRule::Width(Width { event, limit }))
    }

    /// Takes a check after its keyword, or counts one that is not carried out.
    pub(crate) fn take_timing_check(&mut self, name: &'static str) -> Result<(), Fault> {
        match name {
            "SETUP" => self.take_window(Family::Setup, Limits::Before),
            "HOLD" => self.take_window(Family::Setup, Limits::After),
            "SETUPHOLD" => self.take_window(Family::Setup, Limits::BeforeAndAfter),
            "RECOVERY" => self.take_window(Family::Recovery, Limits::After),
            "REMOVAL" => self.take_window(Family::Recovery, Limits::Before),
            "RECREM" => self.take_window(Family::Recovery, Limits::AfterAndBefore),
            "WIDTH" => self.take_width(),
            _ => self.pass(name),
        }
    }
}
