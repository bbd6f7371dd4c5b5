// The layout of what crosses the boundary. A host asks for its number before anything else, and goes no further where it is another than it was built for.
ghost use Rattle.std.specs.Prelude.{◌≡◌};
ghost use Rattle.exports.specs.Layout.{layout};

// One more with every change of an exported function, struct or array.
const LAYOUT: u32 = 12;

#[unsafe(no_mangle)]
pub extern "C" fn tuz_layout() -> u32
    ensures { result ≡ layout }
{
    LAYOUT
}
