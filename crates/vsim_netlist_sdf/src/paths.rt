//! The delays of paths, wires and cells.

use crate::reader::{Reader, Target};
use std::alloc::AllocError;
use vsim_netlist_design::{
    DelayEntry, Delayed, Draft, Edge, Fault, Path, PinPlace, Times, When, push,
};
use vsim_netlist_sdf_text::{Token, parts_of, push_part, read_condition};

impl<'a> Reader<'a> {
    /// Adds an entry of the present cell.
    fn put(&mut self, delayed: Delayed, times: Times) -> Result<(), Fault> {
        match self.target {
            Target::Instance(place) => Ok(self.put_at(place, delayed, times)?),
            Target::Kind(place) => {
                let entry = self.entry(delayed, times);
                Ok(self.delays.kinds.put(place, entry)?)
            }
            Target::Nothing => Err(self.fault(&["a delay stands before the INSTANCE of its cell"])),
        }
    }

    /// Adds an entry of an instance.
    fn put_at(&mut self, place: usize, delayed: Delayed, times: Times) -> Result<(), AllocError> {
        let entry = self.entry(delayed, times);
        self.delays.instances.put(place, entry)
    }

    /// The next entry.
    fn entry(&mut self, delayed: Delayed, times: Times) -> DelayEntry {
        let place = self.entries;
        self.entries = place.saturating_add(1);
        DelayEntry {
            delayed,
            times,
            is_increment: self.is_increment,
            line: self.line,
            place,
        }
    }

    /// Takes an edge.
    fn edge(&mut self) -> Result<Edge, Fault> {
        match self.word("posedge or negedge")? {
            "posedge" => Ok(Edge::Rising),
            "negedge" => Ok(Edge::Falling),
            _ => Err(self.fault(&["an edge other than posedge and negedge is not supported"])),
        }
    }

    /// Takes a pin with an edge, after its opening parenthesis.
    pub(crate) fn edge_and_pin(&mut self) -> Result<(Edge, usize), Fault> {
        let edge = self.edge()?;
        let pin = self.pin()?;
        self.close()?;
        Ok((edge, pin))
    }

    /// Takes the input of a path.
    pub(crate) fn input(&mut self) -> Result<(Edge, usize), Fault> {
        if self.tokens.token == Token::Open {
            self.tokens.advance();
            return self.edge_and_pin();
        }
        Ok((Edge::Both, self.pin()?))
    }

    /// Takes the input and the output of a path.
    fn path(&mut self, when: When) -> Result<Path, Fault> {
        let (edge, from) = self.input()?;
        let to = self.pin()?;
        Ok(Path {
            from,
            edge,
            to,
            when,
        })
    }

    /// Takes a path after its keyword.
    fn take_path(&mut self, when: When) -> Result<(), Fault> {
        let path = self.path(when)?;
        let times = self.times()?;
        self.put(Delayed::Path(path), times)
    }

    /// Takes a path after `CONDELSE`, or after a condition.
    fn take_nested_path(&mut self, when: When) -> Result<(), Fault> {
        if !self.enter()? || self.keyword != "IOPATH" {
            return Err(self.fault(&["IOPATH is wanted after a condition"]));
        }
        self.take_path(when)?;
        self.close()
    }

    /// Adds a condition.
    fn add_condition(&mut self, text: &str, line: usize) -> Result<usize, Fault> {
        let pins = &mut self.delays.pins;
        let condition = read_condition(self.alloc, pins, text, self.divider, line)?;
        let place = self.delays.conditions.len();
        push(&mut self.delays.conditions, condition)?;
        self.name_condition(text, place)
    }

    /// Notes the index of the condition with a text.
    fn name_condition(&mut self, text: &str, place: usize) -> Result<usize, Fault> {
        let key = String::from_str(self.alloc, text)?;
        let _none = self
            .conditions
            .insert(key, place)
            .map_err(|_| Fault::Memory)?;
        Ok(place)
    }

    /// The index of the condition with a text.
    pub(crate) fn condition(&mut self, text: &str, line: usize) -> Result<usize, Fault> {
        let found = match self.conditions.get(text) {
            Some(place) => Some(*place),
            None => None,
        };
        match found {
            Some(place) => Ok(place),
            None => self.add_condition(text, line),
        }
    }

    /// Takes a part of a condition, and returns the depth of parentheses after it; `None` if the
    /// condition has ended.
    fn pass_part(&mut self, depth: usize) -> Option<usize> {
        match self.tokens.token {
            Token::Word(_) => {
                self.tokens.advance();
                Some(depth)
            }
            Token::Open => {
                self.tokens.advance();
                let is_path = depth == 0 && self.is_at("IOPATH");
                if is_path {
                    None
                } else {
                    Some(depth.saturating_add(1))
                }
            }
            Token::Close if depth > 0 => {
                self.tokens.advance();
                Some(depth.saturating_sub(1))
            }
            _ => None,
        }
    }

    /// Goes past a condition and the parenthesis after it, and returns where it ends.
    fn pass_condition(&mut self) -> usize {
        let mut depth = 0usize;
        let mut end = self.tokens.start;
        for _ in 0..u64::MAX {
            let next = self.tokens.end;
            let Some(deeper) = self.pass_part(depth) else {
                break;
            };
            depth = deeper;
            end = next;
        }
        end
    }

    /// Takes a condition, the parenthesis after it and its keyword, and returns its index.
    fn take_condition(&mut self) -> Result<usize, Fault> {
        let (start, line) = (self.tokens.start, self.tokens.token_line);
        let end = self.pass_condition();
        if !self.is_at("IOPATH") {
            return Err(self.unexpected("a condition and an IOPATH"));
        }
        self.tokens.advance();
        let text = self.tokens.between(start, end);
        self.condition(text, line)
    }

    /// Takes a path with a condition, which may have a name.
    fn take_conditional(&mut self) -> Result<(), Fault> {
        if let Token::Quoted(_) = self.tokens.token {
            self.tokens.advance();
        }
        let place = self.take_condition()?;
        self.take_path(When::Holds(place))?;
        self.close()
    }

    /// The index of an instance below the present one.
    fn place_below(&mut self, path: &Draft) -> Result<usize, AllocError> {
        let mut name = Draft::of(self.alloc, self.instance.as_str());
        push_part(&mut name, path);
        let name = name.finish()?;
        self.delays
            .instances
            .place(self.alloc, name.as_str(), self.line)
    }

    /// The index of the pin with the last part of a name.
    fn place_of_last(&mut self, last: &Draft) -> Result<usize, AllocError> {
        if !last.is_whole() {
            return Err(AllocError);
        }
        self.delays.pins.place(self.alloc, last.as_str())
    }

    /// The pin of a word, of the present instance or of one below it.
    fn pin_of(&mut self, word: &'a str) -> Result<PinPlace, AllocError> {
        let name = parts_of(self.alloc, word, self.divider);
        let instance = self.place_below(&name.path)?;
        let pin = self.place_of_last(&name.last)?;
        Ok(PinPlace { instance, pin })
    }

    /// Takes a pin of the present instance or of one below it.
    fn pin_place(&mut self) -> Result<PinPlace, Fault> {
        if let Target::Instance(_) = self.target {
            let word = self.word("a pin")?;
            return Ok(self.pin_of(word)?);
        }
        Err(self.fault(&[
            self.keyword,
            " is not supported in a cell without the name of an instance",
        ]))
    }

    /// Takes the delay of a wire between two pins.
    fn take_wire(&mut self) -> Result<(), Fault> {
        let from = self.pin_place()?;
        let to = self.pin_place()?;
        self.put_wire(to, Delayed::Wire(to.pin, from))
    }

    /// Takes the delay of all wires to a pin.
    fn take_port(&mut self) -> Result<(), Fault> {
        if let Target::Kind(_) = self.target {
            return self.take_own_port();
        }
        let to = self.pin_place()?;
        self.put_wire(to, Delayed::Port(to.pin))
    }

    /// Takes the delay of all wires to a pin of each cell of a kind.
    fn take_own_port(&mut self) -> Result<(), Fault> {
        let pin = self.pin()?;
        let times = self.times()?;
        self.put(Delayed::Port(pin), times)
    }

    /// Takes the values of the wire to a pin.
    fn put_wire(&mut self, to: PinPlace, delayed: Delayed) -> Result<(), Fault> {
        let times = self.times()?;
        Ok(self.put_at(to.instance, delayed, times)?)
    }

    /// Takes the output after `DEVICE`, if there is one.
    fn device(&mut self) -> Result<Delayed, Fault> {
        if self.tokens.token == Token::Open {
            return Ok(Delayed::Device(None));
        }
        Ok(Delayed::Device(Some(self.pin()?)))
    }

    /// Takes the delay of all paths to an output.
    fn take_device(&mut self) -> Result<(), Fault> {
        let delayed = self.device()?;
        let times = self.times()?;
        self.put(delayed, times)
    }

    /// Takes a delay after its keyword.
    pub(crate) fn take_delay(&mut self) -> Result<(), Fault> {
        match self.keyword {
            "IOPATH" => self.take_path(When::Always),
            "COND" => self.take_conditional(),
            "CONDELSE" => self.take_nested_path(When::Otherwise),
            "INTERCONNECT" => self.take_wire(),
            "PORT" => self.take_port(),
            "DEVICE" => self.take_device(),
            "NETDELAY" => self.pass("NETDELAY"),
            _ => Err(self.unsupported()),
        }
    }
}
