// The interface of every register.
ghost use Rattle.std.specs.Prelude.{◌≡◌};
ghost use Rattle.registers.specs.Meaning.{Meaning, Lawful};

// A register answers five questions; `meaning` is what it answers at every number.
pub trait Register {
    ghost meaning: { Self → Meaning };

    // How many kinds; whoever asks learns that the register keeps the laws of every register.
    fn kinds(&self) -> u32
        ensures answer { result ≡ (meaning self.now).kinds }
        ensures lawful { Lawful (meaning self.now) };

    fn links(&self) -> u32
        ensures { result ≡ (meaning self.now).links };

    // The kinds that a link leads from and to; only an unknown link has none.
    fn ends(&self, link: u32) -> Option<(u32, u32)>
        ensures { result ≡ (meaning self.now).ends link };

    fn count(&self, kind: u32) -> u32
        ensures { result ≡ (meaning self.now).count kind };

    // Where a link leads from a record, if anywhere.
    fn follow(&self, link: u32, record: u32) -> Option<u32>
        ensures { result ≡ (meaning self.now).follow link «record» };
}
