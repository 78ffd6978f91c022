// The sizes that the rules fix, with the Rust's names where it has them.

// Screen width in pixels.
pub const SCREEN_WIDTH: usize = 256;
// Screen height in pixels.
pub const SCREEN_HEIGHT: usize = 224;
// Backgrounds: BG1 to BG4 are 0 to 3.
pub const BACKGROUNDS: usize = 4;
// Layers: the backgrounds, then the sprites.
pub const LAYERS: usize = 5;
// The sprites among the layers: their bit of tm, ts, tmw and tsw.
pub const OBJ_LAYER: usize = 4;
// The largest mosaic counter.
pub const LARGEST_COUNTER: u8 = 16;
// The words of colour memory.
pub const COLOUR_WORDS: usize = 256;
