// What a triangle has for each of its half-edges, in order: its sides, their judgements, their class numbers, their fits.
// A struct and no `[T; 3]`: its parts have names in the definitions.
ghost use Rattle.std.specs.Prelude.{◌≡◌, ◌+◌, ◌<◌, length};
ghost use Rattle.classify.specs.inner.Three.{stored};

#[derive(Clone, Copy, Debug, PartialEq, Eq)]
pub struct Three<T> {
    pub first: T,
    pub second: T,
    pub third: T,
}

impl<T: Copy> Three<T> {
    pub(crate) fn map<U, F: Fn(T) -> U>(self, f: F) -> Three<U>
        requires { F.IsAlwaysCallable f }
        ensures { F.post f self.first result.first × F.post f self.second result.second × F.post f self.third result.third }
    {
        Three {
            first: f(self.first),
            second: f(self.second),
            third: f(self.third),
        }
    }

    // Into a list, from place e on.
    pub(crate) fn store(self, list: &mut [T], e: usize)
        requires { e + 2 < length list.old }
        ensures { list.new ≡ stored list.old e self }
    {
        list[e] = self.first;
        list[e + 1] = self.second;
        list[e + 2] = self.third;
    }
}
