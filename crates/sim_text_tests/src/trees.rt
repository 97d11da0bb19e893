//! Trees of whole texts, as lines.

use crate::line::Line;
use crate::written::units::put_file;
use sim_text::parse;
use std::alloc::Global;
use std::test::Fail;

static FILES: [(&str, &str); 9] = [
    (
        "ENTITY T IS END; Architecture A Of t Is Begin End A;",
        "entity t@7 is end;architecture a@30 of t@35 is begin end again;",
    ),
    (
        "entity e is end entity E;architecture a of e is begin end architecture;architecture b of e is begin end architecture b;",
        "entity e@7 is end entity again;architecture a@38 of e@43 is begin end architecture;architecture b@84 of e@89 is begin end architecture again;",
    ),
    (
        "library ieee, work; use ieee.std_logic_1164.ALL, work.p.q; entity e is end entity;",
        "library ieee@8,work@14;use ieee@24.std_logic_1164@29.all,work@49.p@54.q@56;entity e@66 is end entity;",
    ),
    (
        "use work.all; entity e is end entity; library x; entity y is end y;",
        "use work@4.all;entity e@21 is end entity;library x@46;entity y@56 is end again;",
    ),
    (
        "entity e is port (signal A, b : in Std_Logic := '1'; c : std_ulogic); end;",
        "entity e@7 is port(signal a@25,b@28:in std_logic@35:='1'@48;c@53:std_ulogic@57);end;",
    ),
    (
        "architecture a of t is signal s : x; begin u1:c; u2:component c port map(a,'0',open,x=>y,z=>open); end;",
        "architecture a@13 of t@18 is signal s@30:x@34;begin u1@43:c@46;u2@49:component c@62 port map(a@73,'0'@75,open@79,x@84=>y@87,z@89=>open@92);end;",
    ),
    (
        "architecture a of t is begin u3:entity work.e(r)port map(p=>'-'); u4:entity Lib.e; end;",
        "architecture a@13 of t@18 is begin u3@29:entity work@39.e@44(r@46) port map(p@57=>'-'@60);u4@66:entity lib@76.e@80;end;",
    ),
    (
        "architecture a of t is begin p:process(all)is variable v:b; begin null; end process P; process(a, b)begin end process; end;",
        "architecture a@13 of t@18 is begin p@29:process(all)is variable v@55:b@57;begin null;end process again;process(a@95,b@98)begin end process;end;",
    ),
    (
        "architecture a of t is begin l:s <= a and b and c; s <= reject 2 ns inertial b; end;",
        "architecture a@13 of t@18 is begin l@29:s@31<=a@36 and@38 b@42 and@44 c@48;s@51<=reject 2@63 ns inertial b@77;end;",
    ),
];

/// The line for the design file of a text.
fn parsed(alloc: Global, text: &str) -> Result<String, Fail> {
    let file = parse(alloc, text.as_bytes())?;
    let mut line = Line::new(alloc);
    put_file(&mut line, &file);
    Ok(line.whole()?)
}

#[test]
fn files_keep_their_words_labels_and_places(rt: HostRuntime) -> Result<(), Fail> {
    for row in FILES.iter() {
        assert_eq!(rt; parsed(rt.alloc(), row.0)?.as_str(), row.1);
    }
    Ok(())
}
