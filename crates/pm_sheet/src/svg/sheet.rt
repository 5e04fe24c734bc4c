//! The style sheet of a picture: light and dark, by what the reader's screen prefers (this project's own).

/// The style sheet, with the hatch of what is disabled and the ground. Statuses and errors are told apart without
/// red and green; what matters has words or a hatch too.
pub const SHEET: &[u8] =
    b"<defs><pattern id=\"x\" width=\"6\" height=\"6\" patternUnits=\"userSpaceOnUse\" patternTransform=\"rotate(45)\"><rect class=\"x\" width=\"2\" height=\"6\"/></pattern></defs>
<style>
svg{background:#fff}
.g{fill:#fff}
text{font:10px 'DejaVu Sans Mono',Menlo,Consolas,monospace;fill:#333}
line{stroke:#e3e3e3}
.s{fill:#dfe2e6}.r{fill:#f3c34d}.a{fill:#5aa7dc}.u{fill:#b8a3d8}
.x{fill:#fff;fill-opacity:.75}.d{fill:url(#x)}
.k{fill:#3d4248}.kf{fill:#b3261e}
.c{fill:#dbe7f5;stroke:#8fb0d6}.cf{fill:#fbdcd8;stroke:#b3261e}.cr{fill:#fdeecf;stroke:#c47f00}.cd{fill:#f3f3f3;stroke:#d0d0d0}.co{fill:#fbdcd8;stroke:#b3261e;stroke-dasharray:3 2}
.o{fill:#f3d777}.h{fill:#2a9d8f}.q{fill:none;stroke:#8c6bb1;stroke-dasharray:2 2}.w{fill:#e3d8ef;stroke:#8c6bb1}
.tt{font-size:13px;font-weight:bold}.tn,.tm{font-size:9px;fill:#777}.tl{font-size:11px;font-weight:bold}
.ms{font-weight:bold;fill:#555}.no{font-size:8px;fill:#aaa}
.tf,.lh{fill:#b3261e;font-weight:bold}.tr,.lo{fill:#9a6200;font-weight:bold}.td{fill:#888}
.tk{font-size:9px;fill:#fff}.tc{font-weight:bold;stroke:#fff;stroke-width:3px;paint-order:stroke}
@media(prefers-color-scheme:dark){
svg{background:#17191c}
.g{fill:#17191c}
text{fill:#d6d8da}
line{stroke:#33373c}
.s{fill:#3a3f45}.r{fill:#c99a20}.a{fill:#2f7fb8}.u{fill:#77619c}
.x{fill:#17191c}
.k{fill:#cdd2d8}.kf{fill:#ff7a6b}
.c{fill:#24364a;stroke:#4d77a6}.cf{fill:#4a2320;stroke:#ff7a6b}.cr{fill:#453512;stroke:#e0a42e}.cd{fill:#24272b;stroke:#44494f}.co{fill:#4a2320;stroke:#ff7a6b}
.o{fill:#8a7220}.h{fill:#4cc3b3}.q{stroke:#b79be0}.w{fill:#3b2f4d;stroke:#b79be0}
.tn,.tm,.td{fill:#9aa0a6}.ms{fill:#b6bbc0}.no{fill:#74797f}
.tf,.lh{fill:#ff8a7c}.tr,.lo{fill:#f0b84a}.tk{fill:#17191c}.tc{stroke:#17191c}
}
</style>
<rect class=\"g\" width=\"100%\" height=\"100%\"/>
";
