//! The walk over a value and everything inside it. It gives one row after the other: a container comes before its
//! members. A stack holds the containers that have more members.

ghost use Rattle.std.specs.Prelude.{◌≡◌, ◌∷◌, ◌++◌, ◌+◌, ◌*◌, ◌^◌, ◌<◌, ◌≤◌, [], IfOk, IfSome, IsTrue, List, MatchOption, None};
ghost use Rattle.std.specs.Prelude.{Bool, Ok, OnOk, false, length, reverse, true, ℕ};
ghost use Rattle.bplist_cursor.specs.Causes.{GivesCursor, cursor_read};
ghost use Rattle.bplist_cursor.specs.Found.{IsHeld};
ghost use Rattle.bplint_lines.specs.MemberNames.{bracketed, key_name};
ghost use Rattle.bplint_engine.specs.Names.{Extends, IsNameIn, name_in};
ghost use Rattle.bplint_engine.specs.Prelude.{HasMembers, HasRoom, IsHeadFor, OnlyReadsFile, Value, face as face_of, leaf, text};
ghost use Rattle.bplint_engine.specs.Walks.{AreOpen, IsInOrder, IsKept, IsMemberAt, IsOpen, IsPutBack, IsReady, LinesLeftIn};
ghost use Rattle.bplint_engine.specs.Walks.{RowsLeftIn, lines_inside, most_rows, row_line, walked_lines};
ghost use Rattle.bplint_engine.specs.declared.walk.Keys.TheVariants.{Shown};

use crate::members::{Members, count_of, key_text, listed_pair, member_node, members_of};
use crate::names::{Name, Names};
use bplint_lines::{Pair, Style};
use bplist_cert::Checked;
use bplist_cursor::{CursorFault, Face, Node, face, node_head};
use bplist_objects::Head;
use bplist_octets::Source;
use std::alloc::{AllocError, Global};

/// How the names of rows have keys.
#[derive(Clone, Copy, Drop)]
pub(crate) enum Keys {
    /// As a line shows them. In place of a key that it cannot show, and for a member of a set, the name begins with an
    /// index in brackets.
    Shown(Style),
    /// Whole. A key with half of a surrogate pair, and the index of a member of a set, stand beside the text.
    Whole,
}

/// Which rows a walk gives, how they are named, and in which order they come.
#[derive(Clone, Copy, Drop)]
pub(crate) struct Manner {
    /// How names have keys.
    pub keys: Keys,
    /// True if the value has a row, and everything inside it; otherwise only its members have, or the value if it is a
    /// leaf.
    pub deep: bool,
    /// True if pairs come in the order of their keys' units, for which the certificate must have key lists. Otherwise
    /// they come in the order of the file.
    pub sorted: bool,
}

/// A value of a walk.
#[derive(Drop)]
pub(crate) struct Row {
    /// Its node.
    pub node: Node,
    /// Its name.
    pub name: Name,
    /// How many containers it is in, from the top of the walk on.
    pub depth: u64,
    /// What it is.
    pub shown: Face,
}

/// A node, its name, and how many containers it is in.
#[derive(Clone, Copy, Drop)]
struct Named {
    node: Node,
    name: Name,
    depth: u64,
}

/// A container on the stack. The members before number `next` had their rows.
#[derive(Clone, Copy, Drop)]
struct Opened {
    head: Head,
    members: Members,
    /// The number of members, or of pairs.
    count: u64,
    next: u64,
    at: Named,
}

/// Where a walk begins, and how it goes on.
#[derive(Clone, Copy, Drop)]
pub(crate) struct Start<'a> {
    /// The node of the value.
    pub node: Node,
    /// The path text of the value.
    pub path: &'a str,
    /// Which rows the walk gives.
    pub manner: Manner,
    /// How many rows may come after the first, if the walk is deep. Otherwise the number of members bounds that of
    /// rows.
    pub room: u64,
}

/// A walk over a value in a checked file.
#[derive(Drop)]
pub(crate) struct Walk {
    alloc: Global,
    manner: Manner,
    /// The containers around the last row that have more members, the outermost first.
    stack: Vec<Opened>,
    /// Their names, and that of the last row.
    names: Names,
    /// The row of the value itself, until it is given. `None` if it has none.
    first: Option<Row>,
    /// How many more rows may come after it.
    room: u64,
}

impl Walk {
    /// Begins a walk.
    pub(crate) fn begin<S: Source>(
        alloc: Global,
        checked: &mut Checked<S>,
        start: Start<'_>,
    ) -> Result<Walk, CursorFault>
        ensures reads { OnlyReadsFile (cursor_read result) checked.old checked.new }
        ensures ready { IfOk result (λ walk. IsReady checked.old.frame walk) }
        ensures exact { IsTrue checked.old.source.honest → (style : Style) → IsInOrder style start.entry.manner
            → (w : Value) → IsHeld checked.old start.entry.node.object.0 w
            → (start.entry.manner.deep ≡ true
            → length (walked_lines style true start.entry.path.now w) ≤ start.entry.room + 1)
            → GivesCursor (λ walk. RowsLeftIn style checked.old walk
            (walked_lines style start.entry.manner.deep start.entry.path.now w)) result }
    {
        let names = Names::new(alloc, start.path)?;
        let at = Named {
            node: start.node,
            name: names.whole(),
            depth: 0,
        };
        let mut walk = Walk {
            alloc,
            manner: start.manner,
            stack: Vec::new(alloc),
            names,
            first: None,
            room: start.room,
        };
        let row = walk.enter(checked, at)?;
        if walk.manner.deep {
            walk.first = Some(row);
            return Ok(walk);
        }
        let Some(count) = count_of(&row.shown) else {
            walk.first = Some(row);
            return Ok(walk);
        };
        walk.room = count;
        Ok(walk)
    }

    /// Returns the text of the last row's name.
    pub(crate) fn name(&self, row: &Row) -> &[u8]
        requires { IsNameIn self.now.names row.now.name }
        ensures { result.now ≡ name_in self.now.names row.now.name }
    {
        self.names.get(row.name)
    }

    /// Returns the part of the last row's name that names it in its container.
    pub(crate) fn own_name(&self, row: &Row) -> &[u8] {
        self.names.own(row.name)
    }

    /// Returns the next row, or `None` after the last one. `Changed` also means that there are more rows than there
    /// was room for.
    pub(crate) fn next<S: Source>(
        &mut self,
        checked: &mut Checked<S>,
    ) -> Result<Option<Row>, CursorFault>
        requires { IsReady checked.old.frame self.old }
        ensures reads { OnlyReadsFile (cursor_read result) checked.old checked.new }
        ensures ready { OnOk result (IsReady checked.old.frame self.new) }
        ensures falls { IfOk result (λ found. IfSome found (λ _. most_rows self.new < most_rows self.old)) }
        ensures name { IfOk result (λ found. IfSome found (λ row. IsNameIn self.new.names row.name)) }
        ensures exact { IsTrue checked.old.source.honest → (style : Style) (left : List (List ℕ))
            → RowsLeftIn style checked.old self.old left
            → GivesCursor (λ found. MatchOption found (left ≡ []) (λ row. (rest : List (List ℕ))
            × RowsLeftIn style checked.old self.new rest × (left ≡ row_line style self.new.names row ∷ rest))) result }
    {
        if let Some(row) = self.first.take() {
            return Ok(Some(row));
        }
        self.next_member(checked)
    }

    /// Returns the row of the next member.
    fn next_member<S: Source>(
        &mut self,
        checked: &mut Checked<S>,
    ) -> Result<Option<Row>, CursorFault>
        requires { AreOpen checked.old.frame self.old.names (reverse self.old.stack.items) }
        ensures reads { OnlyReadsFile (cursor_read result) checked.old checked.new }
        ensures stack { OnOk result (AreOpen checked.old.frame self.new.names (reverse self.new.stack.items)) }
        ensures kept { (self.new.manner ≡ self.old.manner) × (self.new.first ≡ self.old.first) }
        ensures falls { IfOk result (λ found. IfSome found (λ _. self.new.room + 1 ≡ self.old.room)) }
        ensures name { IfOk result (λ found. IfSome found (λ row. IsNameIn self.new.names row.name)) }
        ensures exact { IsTrue checked.old.source.honest → (style : Style) → IsInOrder style self.old.manner
            → (left : List (List ℕ))
            → LinesLeftIn style self.old.manner.deep checked.old self.old.names (reverse self.old.stack.items) left
            → length left ≤ self.old.room → GivesCursor (λ found. MatchOption found (left ≡ []) (λ row. (rest : List (List ℕ))
            × LinesLeftIn style self.old.manner.deep checked.old self.new.names (reverse self.new.stack.items) rest
            × (left ≡ row_line style self.new.names row ∷ rest))) result }
    {
        let Some(opened) = self.stack.pop() else {
            return Ok(None);
        };
        if self.room == 0 {
            return Err(CursorFault::Changed);
        }
        self.room -= 1;
        let at = self.name_member(checked, &opened)?;
        self.put_back(&opened)?;
        if self.manner.deep {
            Ok(Some(self.enter(checked, at)?))
        } else {
            Ok(Some(self.row_at(checked, at)?))
        }
    }

    /// Puts a container back on the stack, unless the last of its members had its row.
    fn put_back(&mut self, opened: &Opened) -> Result<(), AllocError>
        requires { opened.now.next < opened.now.count }
        ensures stack { OnOk result (IsPutBack opened.now self.old.stack.items self.new.stack.items) }
        ensures kept { (self.new.names ≡ self.old.names) × (self.new.manner ≡ self.old.manner)
            × (self.new.first ≡ self.old.first) × (self.new.room ≡ self.old.room) }
    {
        let next = opened.next + 1;
        if next == opened.count {
            return Ok(());
        }
        Ok(self.stack.push(Opened { next, ..*opened })?)
    }

    /// Returns the row of a node.
    fn row_at<S: Source>(&self, checked: &mut Checked<S>, at: Named) -> Result<Row, CursorFault>
        ensures reads { OnlyReadsFile (cursor_read result) checked.old checked.new }
        ensures name { IfOk result (λ row. row.name ≡ at.name) }
        ensures room { IfOk result (λ row. HasRoom (length checked.old.source.octets) row.shown) }
        ensures exact { IsTrue checked.old.source.honest → (w : Value) → IsHeld checked.old at.node.object.0 w
            → GivesCursor (λ row. row.shown ≡ face_of w) result }
    {
        let shown = face(self.alloc, checked, at.node)?;
        Ok(Row {
            node: at.node,
            name: at.name,
            depth: at.depth,
            shown,
        })
    }

    /// Returns the row of a node. If it has members, puts it on the stack.
    fn enter<S: Source>(&mut self, checked: &mut Checked<S>, at: Named) -> Result<Row, CursorFault>
        requires stack { AreOpen checked.old.frame self.old.names (reverse self.old.stack.items) }
        requires name { IsNameIn self.old.names at.name × (at.name.«end» ≡ length self.old.names) }
        ensures reads { OnlyReadsFile (cursor_read result) checked.old checked.new }
        ensures stack { OnOk result (AreOpen checked.old.frame self.new.names (reverse self.new.stack.items)) }
        ensures kept { (self.new.names ≡ self.old.names) × (self.new.manner ≡ self.old.manner)
            × (self.new.first ≡ self.old.first) × (self.new.room ≡ self.old.room) }
        ensures name { IfOk result (λ row. row.name ≡ at.name) }
        ensures exact { IsTrue checked.old.source.honest → (style : Style) (deep : Bool) → (w : Value)
            → IsHeld checked.old at.node.object.0 w → (left : List (List ℕ))
            → LinesLeftIn style deep checked.old self.old.names (reverse self.old.stack.items) left
            → GivesCursor (λ row. (row.shown ≡ face_of w)
            × LinesLeftIn style deep checked.old self.new.names (reverse self.new.stack.items)
            (lines_inside style deep (name_in self.old.names at.name) w ++ left)) result }
    {
        let length = checked.len();
        let row = self.row_at(checked, at)?;
        let Some((members, count)) = members_of(&row.shown, length) else {
            return Ok(row);
        };
        if count == 0 {
            return Ok(row);
        }
        let head = node_head(checked, at.node)?;
        self.stack.push(Opened {
            head,
            members,
            count,
            next: 0,
            at,
        })?;
        Ok(row)
    }

    /// Returns the next member of a container, with its name.
    fn name_member<S: Source>(
        &mut self,
        checked: &mut Checked<S>,
        opened: &Opened,
    ) -> Result<Named, CursorFault>
        requires { IsOpen checked.old.frame self.old.names opened.now }
        ensures reads { OnlyReadsFile (cursor_read result) checked.old checked.new }
        ensures rest { IsKept self.old self.new }
        ensures name { IfOk result (λ at. Extends self.old.names self.new.names opened.now.at.name at.name) }
        ensures exact { IsTrue checked.old.source.honest → (style : Style) → IsInOrder style self.old.manner
            → (w : Value) → IsHeadFor checked.old opened.now.head w → HasMembers opened.now.members opened.now.count w
            → GivesCursor (IsMemberAt style checked.old w (name_in self.old.names opened.now.at.name) opened.now.next self.new.names)
            result }
    {
        let outer = opened.at;
        let depth = outer.depth.saturating_add(1);
        match opened.members {
            Members::Array => {
                let node = member_node(checked, &opened.head, opened.next)?;
                let name = self.names.push_index(self.alloc, outer.name, opened.next)?;
                Ok(Named { node, name, depth })
            }
            Members::Set => {
                let node = member_node(checked, &opened.head, opened.next)?;
                let name = self.name_place(outer.name, opened.next)?;
                Ok(Named { node, name, depth })
            }
            Members::Dict => {
                let number = self.next_pair(checked, opened)?;
                let key = member_node(checked, &opened.head, 2 * number)?;
                let name = self.name_pair(checked, outer.name, number, key)?;
                let node = member_node(checked, &opened.head, 2 * number + 1)?;
                Ok(Named { node, name, depth })
            }
        }
    }

    /// Returns the name of member `i` of the set with this name.
    fn name_place(&mut self, set: Name, i: u64) -> Result<Name, AllocError>
        requires { IsNameIn self.old.names set }
        ensures rest { IsKept self.old self.new }
        ensures name { IfOk result (λ name. Extends self.old.names self.new.names set name) }
        ensures exact { (style : Style) → IsInOrder style self.old.manner
            → IfOk result (λ name. name_in self.new.names name ≡ bracketed i) }
    {
        match self.manner.keys {
            Keys::Shown(_) => self.names.push_place(self.alloc, set, i),
            Keys::Whole => Ok(self.names.hide(set, i, None)),
        }
    }

    /// Returns the number of the pair that comes next.
    fn next_pair<S: Source>(
        &self,
        checked: &Checked<S>,
        opened: &Opened,
    ) -> Result<u64, CursorFault>
        requires { opened.now.next < opened.now.count }
        ensures reads { cursor_read result ≡ None }
        ensures within { IfOk result (λ i. i < opened.now.count) }
        ensures exact { self.now.manner.sorted ≡ false → result ≡ Ok opened.now.next }
    {
        if !self.manner.sorted {
            return Ok(opened.next);
        }
        match listed_pair(checked, opened.at.node.object, opened.next) {
            Some(number) if number < opened.count => Ok(number),
            _ => Err(CursorFault::Changed),
        }
    }

    /// Returns the name of a pair's value in the dictionary with this name. `key` is the node of the key.
    fn name_pair<S: Source>(
        &mut self,
        checked: &mut Checked<S>,
        dict: Name,
        number: u64,
        key: Node,
    ) -> Result<Name, CursorFault>
        requires { IsNameIn self.old.names dict }
        ensures reads { OnlyReadsFile (cursor_read result) checked.old checked.new }
        ensures rest { IsKept self.old self.new }
        ensures name { IfOk result (λ name. Extends self.old.names self.new.names dict name) }
        ensures exact { IsTrue checked.old.source.honest → (style : Style) → IsInOrder style self.old.manner
            → (u : List ℕ) → IsHeld checked.old key.object.0 (leaf (text u)) → GivesCursor
            (λ name. name_in self.new.names name ≡ key_name style (name_in self.old.names dict) number u) result }
    {
        let units = key_text(self.alloc, checked, key)?;
        let pair = Pair {
            number,
            key: units.as_slice(),
        };
        match self.manner.keys {
            Keys::Shown(style) => Ok(self.names.push_key(self.alloc, style, dict, &pair)?),
            Keys::Whole => Ok(self.names.push_whole_key(self.alloc, dict, &pair, key)?),
        }
    }
}
