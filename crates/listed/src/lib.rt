// A list in an array: its first elements count, and behind them anything may stand.
#![tactic(auto)]

ghost use Rattle.std.specs.Prelude.{◌≡◌, ◌++◌, ◌+◌, ◌∷◌, [], ◌<◌, ◌≤◌, length, set};
ghost use Rattle.listed.specs.View.{listed, listed_as};

// The first `count` of an array's elements, or all where the count is above the room. It is plain: any value may stand in each field.
#[derive(Clone, Copy)]
pub struct Listed<T, const N: usize> {
    pub items: [T; N],
    pub count: usize,
}

impl<T: Copy, const N: usize> Listed<T, N> {
    // None, and a blank at each index.
    #[tactic(auto, unfolding(crate::specs::View::listed_as))]
    pub fn new(blank: T) -> Listed<T, N>
        ensures { result ≡ listed_as N blank [] }
    {
        Listed {
            items: [blank; N],
            count: 0,
        }
    }

    #[tactic(auto, unfolding(crate::specs::View::listed), using(std::proofs::lemmas::List::take_min))]
    pub fn as_slice(&self) -> &[T]
        ensures value { result.now ≡ listed self.now }
        ensures few { length result.now ≤ self.now.count }
        ensures fits { length result.now ≤ N }
    {
        &self.items[..self.count.min(N)]
    }

    // One more. That there is room is asked, since any value may stand as the count.
    #[tactic(auto, unfolding(crate::specs::View::listed), using(std::proofs::lemmas::List::take_more_set))]
    pub fn push(&mut self, element: T)
        requires { self.old.count < N }
        ensures list { listed self.new ≡ listed self.old ++ element ∷ [] }
        ensures whole { self.new ≡ record { items = set self.old.items self.old.count element; count = self.old.count + 1 } }
        ensures count { self.new.count ≡ self.old.count + 1 }
    {
        self.items[self.count] = element;
        self.count += 1;
    }

    // None, in place of what stood.
    #[tactic(auto, unfolding(crate::specs::View::listed))]
    pub fn clear(&mut self)
        ensures list { listed self.new ≡ [] }
        ensures count { self.new.count ≡ 0 }
    {
        self.count = 0;
    }

    // The same list, and a blank at each index behind it.
    #[tactic(auto, unfolding(crate::specs::View::listed, crate::specs::View::listed_as))]
    pub fn pad(&mut self, blank: T)
        ensures { self.new ≡ listed_as N blank (listed self.old) }
    {
        self.count = self.count.min(N);
        for i in self.count..N {
            self.items[i] = blank;
        }
    }
}

impl<T: Copy + Default, const N: usize> Default for Listed<T, N> {
    fn default() -> Listed<T, N> {
        Listed::new(T::default())
    }
}
