//! What is made of a nullable by cases, with a value or a closure for each.

ghost use Rattle.std.specs.Prelude.{◌≡◌, MatchOption, IsErrAnd, unwrap_or, ok_or};
ghost use Rattle.std.specs.Option.{ForSome, ForNone};
ghost use Rattle.juniper_conversions.specs.Nullable.{some, SameCase};

use crate::Nullable;

impl<T> Nullable<T> {
    /// The value, or `default` for either null.
    pub fn unwrap_or(self, default: T) -> T
    where
        T: Drop,
        ensures { result ≡ unwrap_or (some self) default }
    {
        match self {
            Self::Some(value) => value,
            Self::ExplicitNull | Self::ImplicitNull => default,
        }
    }

    /// The value, or what `f` answers, which is called for either null alone.
    pub fn unwrap_or_else<F: FnOnce() -> T>(self, f: F) -> T
        requires { ForNone (some self) (F.pre f) }
        ensures { MatchOption (some self) (F.post f result) (λ value. result ≡ value) }
    {
        self.map_or_else(f, |value| value)
    }

    /// The same case, with what `f` answers of the value, for which alone it is called.
    pub fn map<U, F: FnOnce(T) -> U>(self, f: F) -> Nullable<U>
        requires { ForSome (some self) (F.pre f) }
        ensures { SameCase (F.post f) self result }
    {
        match self {
            Self::Some(value) => Nullable::Some(f(value)),
            Self::ExplicitNull => Nullable::ExplicitNull,
            Self::ImplicitNull => Nullable::ImplicitNull,
        }
    }

    /// What `f` answers of the value, for which alone it is called, or `default` for either null.
    pub fn map_or<U, F: FnOnce(T) -> U>(self, default: U, f: F) -> U
    where
        U: Drop,
        requires { ForSome (some self) (F.pre f) }
        ensures { MatchOption (some self) (result ≡ default) (λ value. F.post f value result) }
    {
        self.map_or_else(|| default, f)
    }

    /// What `f` answers of the value, or what `default` answers for either null; the other one is not called.
    pub fn map_or_else<U, D: FnOnce() -> U, F: FnOnce(T) -> U>(self, default: D, f: F) -> U
        requires default_callable { ForNone (some self) (D.pre default) }
        requires f_callable { ForSome (some self) (F.pre f) }
        ensures { MatchOption (some self) (D.post default result) (λ value. F.post f value result) }
    {
        match self {
            Self::Some(value) => f(value),
            Self::ExplicitNull | Self::ImplicitNull => default(),
        }
    }

    /// `Ok` of the value.
    ///
    /// # Errors
    /// `err`, for either null.
    pub fn ok_or<E>(self, err: E) -> Result<T, E>
    where
        E: Drop,
        ensures { result ≡ ok_or (some self) err }
    {
        self.ok_or_else(|| err)
    }

    /// `Ok` of the value.
    ///
    /// # Errors
    /// What `err` answers, which is called for either null alone.
    pub fn ok_or_else<E, F: FnOnce() -> E>(self, err: F) -> Result<T, E>
        requires { ForNone (some self) (F.pre err) }
        ensures { MatchOption (some self) (IsErrAnd result (F.post err)) (λ value. result ≡ Ok value) }
    {
        match self {
            Self::Some(value) => Ok(value),
            Self::ExplicitNull | Self::ImplicitNull => Err(err()),
        }
    }

    /// The nullable itself if it has a value, and else `other`.
    pub fn or(self, other: Nullable<T>) -> Nullable<T>
    where
        T: Drop,
        ensures { MatchOption (some self) (result ≡ other) (λ _. result ≡ self) }
    {
        self.or_else(|| other)
    }

    /// The nullable itself if it has a value, and else what `f` answers, which is called for either null alone.
    pub fn or_else<F: FnOnce() -> Nullable<T>>(self, f: F) -> Nullable<T>
        requires { ForNone (some self) (F.pre f) }
        ensures { MatchOption (some self) (F.post f result) (λ _. result ≡ self) }
    {
        match self {
            Self::Some(value) => Self::Some(value),
            Self::ExplicitNull | Self::ImplicitNull => f(),
        }
    }
}
