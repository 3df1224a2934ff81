//! The links of a queue, from number to number.
ghost use Rattle.std.specs.Prelude.{◌≡◌, ◌<◌, length, Some, IfSome, is_some, if◌then◌else◌};
ghost use Rattle.std.specs.Option.{option_or};
ghost use Rattle.call_table.specs.Links.{with_next, with_prev};

/// What stands next to a number in its queue.
#[derive(Clone, Copy)]
pub struct Link {
    pub prev: Option<u32>,
    pub next: Option<u32>,
}

/// The first and the last number of a queue.
#[derive(Clone, Copy)]
pub struct Ends {
    pub first: Option<u32>,
    pub last: Option<u32>,
}

impl Ends {
    /// The ends with that number behind the others.
    pub fn with_last(self, number: u32) -> Ends
        ensures { result ≡ record {
          first = option_or self.first (Some number);
          last = Some number;
        } }
    {
        Ends {
            first: self.first.or(Some(number)),
            last: Some(number),
        }
    }

    /// The ends without the number that has those links.
    pub fn without(self, link: Link) -> Ends
        ensures first { result.first ≡ (if is_some link.prev then self.first else link.next) }
        ensures last { result.last ≡ (if is_some link.next then self.last else link.prev) }
    {
        Ends {
            first: match link.prev {
                Some(_) => self.first,
                None => link.next,
            },
            last: match link.next {
                Some(_) => self.last,
                None => link.prev,
            },
        }
    }
}

/// Lets another number follow that one, where it is one.
pub fn set_next(links: &mut [Link], number: Option<u32>, next: Option<u32>)
    requires { IfSome number (λ n. n < length links.old) }
    ensures { links.new ≡ with_next number next links.old }
{
    if let Some(number) = number {
        links[number as usize].next = next;
    }
}

/// Lets another number stand before that one, where it is one.
pub fn set_prev(links: &mut [Link], number: Option<u32>, prev: Option<u32>)
    requires { IfSome number (λ n. n < length links.old) }
    ensures { links.new ≡ with_prev number prev links.old }
{
    if let Some(number) = number {
        links[number as usize].prev = prev;
    }
}
