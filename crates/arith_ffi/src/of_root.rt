// The exports of the crate `root`.
ghost use Rattle.std.specs.Prelude.{◌≡◌};
ghost use Rattle.root.specs.Root.{root_of};

#[unsafe(no_mangle)]
pub extern "C" fn rt_root(x: f32) -> f32
    ensures { result ≡ root_of x }
{
    root::root(x)
}
