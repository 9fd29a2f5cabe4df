// What a delay memory is.
ghost use Rattle.std.specs.Prelude.{◌≡◌, List, length};
ghost use Rattle.std.specs.Option.{unwrap_or};
ghost use Rattle.delay.specs.Delay.{look, entered};

// The last elements of a serial signal, as many as the memory's reach.
//
// A memory means the list of its elements, the newest first. The list's length is the reach, and no
// call alters it.
pub trait DelayMemory {
    type Element: Copy;

    ghost held: { Self → List Self.Element };

    // How many elements the memory holds.
    fn reach(&self) -> usize
        ensures { result ≡ length (held self.now) };

    // The element n places back, the newest at 1. There is none at 0 and none beyond the reach.
    fn back(&self, n: usize) -> Option<Self::Element>
        ensures { result ≡ look (held self.now) n };

    // The element n places back, or `none` where there is none.
    fn back_or(&self, n: usize, none: Self::Element) -> Self::Element
        ensures { result ≡ unwrap_or (look (held self.now) n) none }
    {
        self.back(n).unwrap_or(none)
    }

    // Puts an element first and drops the oldest.
    fn enter(&mut self, x: Self::Element)
        ensures { held self.new ≡ entered x (held self.old) };
}
