//! Texts, and their designs and stores.

use sim_run::{Design, Options, WaveStore, elaborate};
use std::alloc::Global;

/// One signal, changed once.
pub const ONCE: &str =
    "entity t is end;architecture a of t is signal s:std_logic:='0';begin s <= '1' after 5 ns; end;";

/// Two drivers that contradict each other.
pub const TWO_DRIVERS: &str =
    "entity t is end;architecture a of t is signal s:std_logic;begin s <= '0'; s <= '1'; end;";

/// A signal that changes forever at the same time.
pub const ENDLESS: &str =
    "entity t is end;architecture a of t is signal s:std_logic:='0';begin s <= not s; end;";

/// Two flip-flops that take each other's value.
pub const EXCHANGE: &str =
    "entity t is end;architecture a of t is signal clk,a:std_logic:='0'; signal b:std_logic:='1';begin \
clk <= '1' after 5 ns; process(clk) begin if rising_edge(clk) then a <= b; end if; end process; \
process(clk) begin if rising_edge(clk) then b <= a; end if; end process; end;";

/// A flip-flop that toggles at each rising edge.
pub const TOGGLE: &str =
    "entity t is end;architecture a of t is signal clk:std_logic:='0'; signal q:std_logic;begin \
clk <= not clk after 5 ns; process (clk) variable v:std_logic:='0'; begin if rising_edge(clk) then v := not v; q <= v; end if; \
end process; end;";

/// The stop time, in femtoseconds, at which the toggling ends.
pub const STOP: u64 = 16_000_000;

/// Options of a run.
pub fn options(alloc: Global, limit: u32, workers: usize) -> Option<Options> {
    Some(Options {
        top: String::from_str(alloc, "t").ok()?,
        stop: STOP,
        limit,
        workers,
    })
}

/// The flat design of a text under the top `t`.
pub fn design(alloc: Global, text: &str) -> Option<Design> {
    let options = options(alloc, 1, 1)?;
    elaborate(alloc, text.as_bytes(), &options).ok()
}

/// The store of a text at the start of its run.
pub fn store(alloc: Global, text: &str, limit: u32) -> Option<WaveStore> {
    let design = design(alloc, text)?;
    WaveStore::new(alloc, design, STOP, limit).ok()
}
