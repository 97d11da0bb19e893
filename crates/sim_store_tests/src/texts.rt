//! Texts, their designs, and the cycles of their stores.

use sim_exec::Done;
use sim_flat_design::Design;
use sim_logic::LATEST;
use sim_run::{Options, elaborate};
use sim_store::WaveStore;
use std::alloc::Global;

/// No signals and no processes.
pub const EMPTY: &str = "entity t is end;architecture a of t is begin end;";

/// One signal, changed once.
pub const ONCE: &str =
    "entity t is end;architecture a of t is signal s:std_logic:='0';begin s <= '1' after 5 ns; end;";

/// A postponed assignment without a delay.
pub const POSTPONED: &str =
    "entity t is end;architecture a of t is signal a,q:std_logic:='0';begin a <= '1' after 1 ns; \
postponed q <= a; end;";

/// A postponed process that waits over a delta cycle.
pub const SETTLED: &str =
    "entity t is end;architecture a of t is signal a,b,q:std_logic:='0';begin a <= '1' after 1 ns; \
b <= a; postponed process(a,b) variable v:std_logic:='0'; begin v := not v; q <= v after 1 ns; \
end postponed process; end;";

/// Two drivers that contradict each other.
pub const TWO_DRIVERS: &str =
    "entity t is end;architecture a of t is signal s:std_logic;begin s <= '0'; s <= '1'; end;";

/// Two flip-flops that take each other's value.
pub const EXCHANGE: &str =
    "entity t is end;architecture a of t is signal clk,a:std_logic:='0'; signal b:std_logic:='1';begin \
clk <= '1' after 5 ns; process(clk) begin if rising_edge(clk) then a <= b; end if; end process; \
process(clk) begin if rising_edge(clk) then b <= a; end if; end process; end;";

/// A signal that nothing drives.
pub const NOTHING: &str =
    "entity t is end;architecture a of t is signal a:std_logic:='0';begin end;";

/// An inverter that changes every nanosecond, and a process that is executed at first alone.
pub const IDLE: &str =
    "entity t is end;architecture a of t is signal a,z,q:std_logic:='0';begin a <= not a after 1 ns; \
process(z) begin q <= not z; end process; end;";

/// A flip-flop that toggles at each rising edge.
pub const TOGGLE: &str =
    "entity t is end;architecture a of t is signal clk:std_logic:='0'; signal q:std_logic;begin \
clk <= not clk after 5 ns; process (clk) variable v:std_logic:='0'; begin if rising_edge(clk) then v := not v; q <= v; end if; \
end process; end;";

/// Registers, each in another form.
pub const REGISTERS: &str =
    "entity t is end;architecture a of t is signal c,d,r,q,p,s,u,v,w:std_logic;begin \
process(c) begin if c'event and c = '1' then q <= d; end if; end process; \
process(c,r) begin if r = '1' then p <= '0'; elsif falling_edge(c) then p <= d; end if; end process; \
s <= d when rising_edge(c); u <= '0' when r = '0' else d when c = '0' and c'event; \
process(c,r) begin if not r then v <= '0'; elsif rising_edge(c) then v <= d; end if; end process; \
process(c) begin if rising_edge(c) and d = '1' then w <= d; end if; end process; end;";

/// A conditional waveform, whose condition is evaluated once before and once after it changes.
pub const CHOICE: &str =
    "entity t is end;architecture a of t is signal a,q:std_logic:='0';begin a <= '1' after 1 ns; \
q <= '1' after 8 ns when a = '0' else '1' after 9 ns; end;";

/// Pulses on a signal with two drivers, some of them rejected, through instances, with a delta
/// cycle after each.
pub const PULSES: &str =
    "entity e is port (signal i : in std_logic; signal o : out std_logic); end;\
architecture a of e is signal m : std_logic := '1'; begin m <= i; o <= transport not m after 3 ns, m after 4 ns; end;\
entity t is end;architecture a of t is signal c,d : std_logic := '0'; signal s : std_logic; \
component e is port (signal i : in std_logic; signal o : out std_logic); end component; begin \
c <= not c after 7 ns; d <= reject 2 ns inertial not d after 5 ns when c = '1' else c after 3 ns; \
u : e port map (c, s); v : e port map (i => d, o => s); end;";

/// The flat design of a text under the top `t`.
pub fn flat(alloc: Global, text: &str) -> Option<Design> {
    let options = Options {
        top: String::from_str(alloc, "t").ok()?,
        stop: LATEST,
        limit: 10_000,
        workers: 1,
    };
    elaborate(alloc, text.as_bytes(), &options).ok()
}

/// Executes a process, and gives its result to the store, if it is due.
fn execute(alloc: Global, store: &mut WaveStore, process: usize) {
    if let Ok(job) = store.job(alloc, process) {
        if let Ok(done) = Done::run(alloc, job) {
            let _ = store.deposit(done);
        }
    }
}

/// One more cycle: all processes that are due are executed, and the store advances.
fn cycle(alloc: Global, store: &mut WaveStore) {
    for process in 0..store.design().processes().len() {
        execute(alloc, store, process);
    }
    let _ = store.advance(alloc);
}

/// Carries out this many cycles.
pub fn go_on(alloc: Global, store: &mut WaveStore, cycles: usize) {
    for _cycle in 0..cycles {
        cycle(alloc, store);
    }
}
